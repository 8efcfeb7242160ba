// Linear systems of n complex unknowns, of the caller's units. A matrix stands row after row, each entry real then imaginary.
ghost use Rattle.std.specs.Prelude.{◌≡◌};
ghost use Rattle.refusals.specs.declared.Allowance.TheVariants.{Rows};
ghost use Rattle.refusals.specs.Refusals as refusals;
ghost use Rattle.solver.specs.Calls as calls;
ghost use Rattle.entries.specs.Studies as spec;

use crate::answers::give;
use refusals::{Allowance, number_of};

// Solves a x = b: a is 2 n n numbers, b and x 2 n, work 2 n (n + 1). The allowance is of row reductions; how many there were goes by
// pointer.
#[unsafe(no_mangle)]
pub extern "C" fn jeturipe_solve_linear(
    n: usize,
    a: &[f64],
    b: &[f64],
    allowance: usize,
    x: &mut [f64],
    work: &mut [f64],
    rows_reduced: &mut usize,
) -> u32
    ensures { spec.SolveAnswered
        (calls.after_solve n a.now b.now (Rows allowance) x.old work.old)
        result x.new work.new rows_reduced.old rows_reduced.new }
{
    let answer = solver::solve_linear(n, a, b, Allowance::Rows(allowance), x, work);
    give(answer, rows_reduced);
    number_of(answer)
}

// Inverts mat: mat and inverse are 2 n n numbers, work 4 n n.
#[unsafe(no_mangle)]
pub extern "C" fn jeturipe_complex_matrix_inverse(
    n: usize,
    mat: &[f64],
    inverse: &mut [f64],
    work: &mut [f64],
) -> u32
    ensures { (result ≡ refusals.number_of
        (calls.after_inverse n mat.now inverse.old work.old).answer)
        × (inverse.new ≡ (calls.after_inverse n mat.now inverse.old work.old).output)
        × (work.new ≡ (calls.after_inverse n mat.now inverse.old work.old).work) }
{
    number_of(solver::complex_matrix_inverse(n, mat, inverse, work))
}
