// The text of the program `reduce`: from the bytes that it reads to the bytes that it writes.
#![tactic(auto)]

ghost use Rattle.std.specs.Prelude.{◌≡◌};
ghost use Rattle.reduce_text.specs.Reduce.{after_reduce};

use print::print;
use read::read;
use refusals::Refusal;

pub mod print;
pub mod read;
mod text;

// The most buses that `reduce` reads, and the lengths that follow from it: of the matrix slice, of the output, and of the
// longest input that can matter.
pub const MOST: usize = 64;

pub const MATRIX: usize = 2 * (MOST * MOST);

pub const OUTPUT: usize = 8 + 15 * MOST + 34 * (MOST * MOST);

pub const INPUT: usize = 9 + 11 * MOST + 34 * (MOST * MOST) + 16 * MOST + 34;

// What `reduce` prints for this input, at the output's front, with 0 behind it; answers how many bytes that is. The matrix slice is +0
// afterwards.
pub fn reduce(input: &[u8], output: &mut [u8], matrix: &mut [f64]) -> Result<usize, Refusal>
    ensures { (result ≡ (after_reduce input.now output.old matrix.old).answer)
        × (output.new ≡ (after_reduce input.now output.old matrix.old).output)
        × (matrix.new ≡ (after_reduce input.now output.old matrix.old).matrix) }
{
    if output.len() != OUTPUT || matrix.len() != MATRIX {
        return Err(Refusal::WrongLength);
    }
    let reading = read(input, matrix);
    output.fill(0);
    let n = print(output, reading, matrix);
    complex::slices::clear(matrix);
    Ok(n)
}
