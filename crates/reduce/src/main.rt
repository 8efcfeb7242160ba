// The program `reduce`: standard input is read until it ends or the buffer is full, and what `reduce_text` makes of it is written.
// Bytes beyond the buffer cannot change the answer (reduce_text!Prefix `printed-prefix`). Where reading fails nothing is written.
#![tactic(auto)]

ghost use Rattle.std.specs.Prelude.{◌≡◌, length};
ghost use Rattle.reduce_text.specs.Reduce.{input_length, output_length, matrix_length, printed};
ghost use Rattle.reduce.specs.Inner.Moves.{Front};

use std::alloc::{AllocError, Global};
use std::io::Error;
use std::process::ExitCode;

mod moves;

// The buffers, by their lengths alone: fixed memory, since the program asks for none before a call has failed.
fn input_buffer() -> [u8; reduce_text::INPUT]
    ensures { input_length ≡ length result }
{
    [0; reduce_text::INPUT]
}

fn output_buffer() -> [u8; reduce_text::OUTPUT]
    ensures { output_length ≡ length result }
{
    [0; reduce_text::OUTPUT]
}

fn matrix_buffer() -> [f64; reduce_text::MATRIX]
    ensures { matrix_length ≡ length result }
{
    [0.0; reduce_text::MATRIX]
}

// What is printed for this input stands at the output's front; answers how many bytes it has.
fn answer(input: &[u8], output: &mut [u8], matrix: &mut [f64]) -> usize
    requires { (output_length ≡ length output.old) × (matrix_length ≡ length matrix.old) }
    ensures { Front result output.new (printed input.now) }
{
    reduce_text::reduce(input, output, matrix).unwrap_or(0)
}

// The system's words for a failure, without its number.
fn reason(alloc: Global, why: &Error) -> Result<String, AllocError> {
    let told = format!(in alloc; "{why}")?;
    match told.split_once(" (os error ") {
        Some((words, _)) => String::from_str(alloc, words),
        None => Ok(told),
    }
}

// One line on standard error: what failed, and why. Where that line cannot be written nothing is left to be done.
fn fail(rt: &(impl Eprint + AllocGlobal), what: &str, why: Error) -> ExitCode {
    let _ = match reason(rt.alloc(), &why) {
        Ok(words) => eprintln!(rt; "reduce: {what} failed: {words}"),
        Err(_) => eprintln!(rt; "reduce: {what} failed: {why}"),
    };
    ExitCode::FAILURE
}

fn main(rt: HostRuntime) -> ExitCode {
    let mut input = input_buffer();
    let n = match moves::read(&mut rt.stdin(), &mut input) {
        Ok(n) => n,
        Err(why) => return fail(&rt, "reading standard input", why),
    };
    let mut output = output_buffer();
    let mut matrix = matrix_buffer();
    let k = answer(&input[..n], &mut output, &mut matrix);
    match moves::write(&mut rt.stdout(), &output[..k]) {
        Ok(_) => ExitCode::SUCCESS,
        Err(why) => fail(&rt, "writing standard output", why),
    }
}
