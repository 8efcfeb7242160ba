// The work of `solve_linear` and `complex_matrix_inverse` once the input is accepted: the slice is filled, eliminated, read, and cleared.
// The functions here have a `requires`, which their callers prove.
ghost use Rattle.std.specs.Prelude.{◌≡◌, cond, ℕ, ◌+◌, ◌*◌, ◌<◌, ◌≤◌, T, is_ok, length};
ghost use Rattle.binary64.specs.Values.{all_finite};
ghost use Rattle.complex.specs.Entries.{entry};
ghost use Rattle.complex.specs.Matrices.{entry_at, grid, zeros};
ghost use Rattle.refusals.specs.declared.Allowance.TheVariants.{Unlimited};
ghost use Rattle.refusals.specs.Refusals.{limit, outcome};
ghost use Rattle.refusals.specs.Work.{work_refusal};
ghost use Rattle.solver.specs.GaussJordan.{augmented};
ghost use Rattle.solver.specs.Solving as spec;
ghost use Rattle.solver.specs.Steps.{steps_of_solve, steps_of_inverse};
ghost use Rattle.solver.specs.Inner.Work.{Ended};

use crate::blocks::Columns;
use crate::elimination::eliminate;
use complex::slices::clear;
use refusals::Refusal;

// The system beside its right side.
fn fill_system(work: &mut [f64], n: usize, a: &[f64], b: &[f64])
    requires { (n ≤ limit) × (length work.old ≡ 2 * (n * (n + 1))) × (length a.now ≡ 2 * (n * n)) × (length b.now ≡ 2 * n) }
    ensures { (i j : ℕ) → i < n → j < n + 1 → entry_at (n + 1) work.new i j
        ≡ augmented spec.operations n (entry_at n a.now) (λ (r k : ℕ). entry b.now r) i j }
{
    let w = n + 1;
    Columns { n, w, at: 0, m: n }.place(work, a);
    Columns { n, w, at: n, m: 1 }.place(work, b);
}

// x becomes the solution of a x = b, under an allowance of row reductions. Answers how many of these are left, or the refusal that the
// elimination meets, with x as it was.
pub fn solved(
    n: usize,
    a: &[f64],
    b: &[f64],
    allowed: usize,
    x: &mut [f64],
    work: &mut [f64],
) -> Result<usize, Refusal>
    requires { (n ≤ limit)
        × (length work.old ≡ 2 * (n * (n + 1)))
        × (length a.now ≡ 2 * (n * n))
        × (length b.now ≡ 2 * n)
        × (length x.old ≡ 2 * n)
        × T (all_finite a.now)
        × T (all_finite b.now) }
    ensures { (Ended allowed result (steps_of_solve n (entry_at n a.now) (entry b.now)))
        × (x.new
        ≡ cond (is_ok result) (grid n 1 (λ (i k : ℕ). spec.solve n (entry_at n a.now) (entry b.now) i)) x.old)
        × (work.new ≡ zeros (length work.old)) }
{
    let w = n + 1;
    fill_system(work, n, a, b);
    let end = eliminate(work, n, w, allowed);
    if end.is_ok() {
        Columns { n, w, at: n, m: 1 }.take(work, x);
    }
    clear(work);
    end
}

// The matrix beside the identity.
pub fn fill_identity(work: &mut [f64], n: usize, mat: &[f64])
    requires { (n ≤ limit) × (length work.old ≡ 2 * (n * (n + n))) × (length mat.now ≡ 2 * (n * n)) }
    ensures { (i j : ℕ) → i < n → j < n + n → entry_at (n + n) work.new i j
        ≡ augmented spec.operations n (entry_at n mat.now) (λ (r k : ℕ). spec.unit_column k r) i j }
{
    let w = n + n;
    clear(work);
    Columns { n, w, at: 0, m: n }.place(work, mat);
    Columns { n, w, at: n, m: n }.place_ones(work);
}

// `inverse` becomes the matrix's inverse, or stays as it was where the elimination meets a refusal.
pub fn inverted(n: usize, mat: &[f64], inverse: &mut [f64], work: &mut [f64]) -> Result<(), Refusal>
    requires { (n ≤ limit)
        × (length work.old ≡ 2 * (n * (n + n)))
        × (length mat.now ≡ 2 * (n * n))
        × (length inverse.old ≡ 2 * (n * n))
        × T (all_finite mat.now) }
    ensures { (result ≡ outcome (work_refusal Unlimited (steps_of_inverse n (entry_at n mat.now))))
        × (inverse.new ≡ cond (is_ok result) (grid n n (spec.inverse n (entry_at n mat.now))) inverse.old)
        × (work.new ≡ zeros (length work.old)) }
{
    let w = n + n;
    fill_identity(work, n, mat);
    // n n row reductions are enough
    let end = eliminate(work, n, w, n * n);
    if end.is_ok() {
        Columns { n, w, at: n, m: n }.take(work, inverse);
    }
    clear(work);
    end.map(|_| ())
}
