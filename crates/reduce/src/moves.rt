// A reader and a writer, each to its end. What the operating system moves is no contract's: these say how much, never what.
ghost use Rattle.std.specs.Prelude.{◌≡◌, ◌≤◌, length, IfOk};

use std::io::{Error, ErrorKind, Read, Result, Write};

// An interrupted call is made again. A loop must end, and nothing says that signals do: so often, which no run uses up.
const TRIES: usize = 4294967295;

// A signal came before the call moved a byte.
fn interrupted(moved: &Result<usize>) -> bool {
    match moved {
        Ok(_) => false,
        Err(why) => why.kind() == ErrorKind::Interrupted,
    }
}

// What the call answers once no signal interrupts it.
fn again<F: FnMut() -> Result<usize>>(mut call: F) -> Result<usize>
    requires { F.IsAlwaysCallable call }
{
    for _ in 0..TRIES {
        let moved = call();
        if !interrupted(&moved) {
            return moved;
        }
    }
    call()
}

// What is read until it ends or the buffer is full: how many bytes stand at the buffer's front.
pub fn read<R: Read>(from: &mut R, buffer: &mut [u8]) -> Result<usize>
    ensures { IfOk result (λ n. n ≤ length buffer.new) }
{
    let mut done = 0;
    while done < buffer.len() {
        let rest = &mut buffer[done..];
        match again(|| from.read(rest))?.min(rest.len()) {
            0 => return Ok(done),
            n => done += n,
        }
    }
    Ok(done)
}

// All of these bytes; a call that takes none of them has failed.
pub fn write<W: Write>(to: &mut W, bytes: &[u8]) -> Result<usize>
    ensures { IfOk result (λ n. n ≡ length bytes.now) }
{
    let mut done = 0;
    while done < bytes.len() {
        let rest = &bytes[done..];
        match again(|| to.write(rest))?.min(rest.len()) {
            0 => return Err(Error::from(ErrorKind::WriteZero)),
            n => done += n,
        }
    }
    Ok(done)
}
