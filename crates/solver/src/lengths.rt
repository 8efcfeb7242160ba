// The refusals told from the input, in their order. Nothing is multiplied before the size is known to be within the limit, and
// no number is looked at before the lengths are right.
ghost use Rattle.std.specs.Prelude.{◌≡◌};
ghost use Rattle.refusals.specs.Refusals.{outcome};
ghost use Rattle.solver.specs.Calls as spec;

use binary64::finite::all_finite;
use refusals::{LIMIT, Refusal};

// Refused with 1, 2 or 5: a solve of size n, by the lengths of its slices in numbers.
#[tactic(auto, unfolding(crate::specs::Calls::solve_shape_refusal, refusals::specs::Refusals::answered))]
pub fn solve_shape_refusal(
    n: usize,
    a: usize,
    b: usize,
    x: usize,
    work: usize,
) -> Result<(), Refusal>
    ensures { result ≡ outcome (spec.solve_shape_refusal n a b x work) }
{
    if n > LIMIT {
        return Err(Refusal::TooMany);
    }
    if a != 2 * (n * n) || x != 2 * n || work != 2 * (n * (n + 1)) {
        return Err(Refusal::WrongLength);
    }
    if n == 0 || b != 2 * n {
        return Err(Refusal::EmptySystem);
    }
    Ok(())
}

// Refused with 1, 2 or 5: an inverse of size n, by the lengths of its slices in numbers.
#[tactic(auto, unfolding(crate::specs::Calls::inverse_shape_refusal, refusals::specs::Refusals::answered))]
pub fn inverse_shape_refusal(
    n: usize,
    mat: usize,
    inverse: usize,
    work: usize,
) -> Result<(), Refusal>
    ensures { result ≡ outcome (spec.inverse_shape_refusal n mat inverse work) }
{
    if n > LIMIT {
        return Err(Refusal::TooMany);
    }
    if mat != 2 * (n * n) || inverse != 2 * (n * n) || work != 4 * (n * n) {
        return Err(Refusal::WrongLength);
    }
    if n == 0 {
        return Err(Refusal::EmptySystem);
    }
    Ok(())
}

// Refused with 1, 2, 5 or 19: a solve of size n: the system, the right side, and the lengths of the other slices in numbers.
#[tactic(auto, using(complex::proofs::Finite::all_both, refusals::proofs::Numbers::numbers), unfolding(crate::specs::Calls::solve_refusal))]
pub fn solve_refusal(n: usize, a: &[f64], b: &[f64], x: usize, work: usize) -> Result<(), Refusal>
    ensures { result ≡ outcome (spec.solve_refusal n a.now b.now x work) }
{
    solve_shape_refusal(n, a.len(), b.len(), x, work)?;
    if !all_finite(a) || !all_finite(b) {
        return Err(Refusal::GivenNotFinite);
    }
    Ok(())
}

// Refused with 1, 2, 5 or 19: an inverse of size n: the matrix, and the lengths of the other slices in numbers.
#[tactic(auto, using(refusals::proofs::Numbers::numbers), unfolding(crate::specs::Calls::inverse_refusal))]
pub fn inverse_refusal(n: usize, mat: &[f64], inverse: usize, work: usize) -> Result<(), Refusal>
    ensures { result ≡ outcome (spec.inverse_refusal n mat.now inverse work) }
{
    inverse_shape_refusal(n, mat.len(), inverse, work)?;
    if !all_finite(mat) {
        return Err(Refusal::GivenNotFinite);
    }
    Ok(())
}
