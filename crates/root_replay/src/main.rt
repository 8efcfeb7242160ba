// Roots compared with answers that the machine's own sqrt gave. Standard input has them: a line each, the bits of a number and of its root
// as two words of 16 hexadecimal digits, and 7ff8000000000000 for a NaN (oracle/roots says how they were made). Prints how many agree.
#![tactic(auto)]

ghost use Rattle.std.specs.Prelude.{◌≡◌, ◌≤◌, ◌<◌, length, IfOk};

use binary64::sqrt;
use binary64::words::{of_word, to_word};
use std::io;
use std::io::Read;

// Two words of 16 digits, a space between them and a line feed behind them.
const LINE: usize = 34;

// The most bytes that are read.
const SPACE: usize = 65536;

fn digit(c: u8) -> u64
    ensures { result < 16 }
{
    let n = u64::from(c);
    if n < 97 { n % 16 } else { (n + 9) % 16 }
}

// The last 16 of the hexadecimal digits as a word.
fn word(digits: &[u8]) -> u64 {
    digits
        .iter()
        .fold(0, |w, c| w % 0x1000_0000_0000_0000 * 16 + digit(*c))
}

// Whether the root on a line is ours.
fn agrees(line: &[u8]) -> bool
    requires { length line.now ≡ LINE }
{
    to_word(sqrt(of_word(word(&line[..16])))) == word(&line[17..33])
}

// Until the buffer is full or the input ends: how many bytes stand at the buffer's front.
fn read_full<R: Read>(from: &mut R, buffer: &mut [u8]) -> io::Result<usize>
    ensures { IfOk result (λ n. n ≤ length buffer.new) }
{
    let mut done = 0;
    while done < buffer.len() {
        let n = from.read(&mut buffer[done..])?;
        if n == 0 {
            break;
        }
        done += n;
    }
    Ok(done)
}

fn main(rt: HostRuntime) -> io::Result<()> {
    // fixed memory: all lines that are read have room in it
    let mut space = [0; SPACE];
    let n = read_full(&mut rt.stdin(), &mut space)?;
    let lines = space[..n].chunks_exact(LINE);
    let count = lines.len();
    let agree = lines.filter(|line| agrees(line)).count();
    println!(rt; "roots: {agree} of {count} agree")
}
