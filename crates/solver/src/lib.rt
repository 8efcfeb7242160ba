// The solution of a complex system, and the inverse of a complex matrix, by Gauss-Jordan elimination.
#![tactic(auto)]

ghost use Rattle.std.specs.Prelude.{◌≡◌};
ghost use Rattle.solver.specs.Calls as spec;

use refusals::{Allowance, Refusal, allowed_rows};

pub mod blocks;
pub mod elimination;
pub mod lengths;
pub mod rows;
pub mod solving;

// x becomes the solution of a x = b: a has n rows of n complex entries, b and x have n, and the work slice has n rows of n + 1. Answers how
// many rows were reduced: the pairs of column and other row whose factor was not skipped, at most n (n - 1).
// Refused: 1, 2, 5 from the input, 19 where a number of a or b is not finite; 13 where a pivot is below 1e-150 in size, 18 before the row
// reduction that would exceed the allowance, 20 where a number computed is not finite, whichever the work meets first. The work slice is
// all +0 after acceptance, 13, 18 or 20. 13 is no test for a singular system: rounding leaves most of them a larger pivot, and what they
// do not determine is noise.
pub fn solve_linear(
    n: usize,
    a: &[f64],
    b: &[f64],
    allowance: Allowance,
    x: &mut [f64],
    work: &mut [f64],
) -> Result<usize, Refusal>
    ensures { (result ≡ (spec.after_solve n a.now b.now allowance x.old work.old).answer)
        × (x.new ≡ (spec.after_solve n a.now b.now allowance x.old work.old).output)
        × (work.new ≡ (spec.after_solve n a.now b.now allowance x.old work.old).work) }
{
    lengths::solve_refusal(n, a, b, x.len(), work.len())?;
    let allowed = allowed_rows(allowance);
    let left = solving::solved(n, a, b, allowed, x, work)?;
    Ok(allowed - left)
}

// `inverse` becomes the inverse of mat, both n rows of n complex entries; the work slice has n rows of 2 n.
// Refused: 1, 2, 5 from the input, 19 where a number of mat is not finite; 13 where a pivot is below 1e-150 in size, 20 where a number
// computed is not finite, whichever the work meets first. The work slice is all +0 after acceptance, 13 or 20. 13 is no test for a singular
// matrix: the inverse of a bus matrix needs a shunt to ground in every island, and without one it is mostly answered, as noise.
pub fn complex_matrix_inverse(
    n: usize,
    mat: &[f64],
    inverse: &mut [f64],
    work: &mut [f64],
) -> Result<(), Refusal>
    ensures { (result ≡ (spec.after_inverse n mat.now inverse.old work.old).answer)
        × (inverse.new ≡ (spec.after_inverse n mat.now inverse.old work.old).output)
        × (work.new ≡ (spec.after_inverse n mat.now inverse.old work.old).work) }
{
    lengths::inverse_refusal(n, mat, inverse.len(), work.len())?;
    solving::inverted(n, mat, inverse, work)
}
