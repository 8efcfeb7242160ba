// The impedance between two rows of a matrix. What each function requires, `thevenin_impedance` has tested.
ghost use Rattle.std.specs.Prelude.{◌≡◌, ◌+◌, ◌*◌, ◌≤◌, ◌<◌, T, length, take};
ghost use Rattle.binary64.specs.Values.{all_finite};
ghost use Rattle.complex.specs.Leaves.{pair};
ghost use Rattle.complex.specs.Matrices.{entry_at, zeros};
ghost use Rattle.refusals.specs.Refusals.{limit, answered};
ghost use Rattle.refusals.specs.declared.Allowance.TheVariants.{Unlimited};
ghost use Rattle.refusals.specs.Work.{work_refusal};
ghost use Rattle.solver.specs.Solving.{inverse};
ghost use Rattle.solver.specs.Inner.Work.{right_sides};
ghost use Rattle.kron_reduction.specs.Reading.{thevenin_of, of_thevenin, steps_of_impedance};

use crate::careful::Front;
use complex::entry::get;
use complex::slices::clear;
use complex::{Complex, cadd, cmul, csub};
use refusals::Refusal;
use solver::elimination::eliminate;
use solver::solving::fill_identity;

// Two rows of a matrix of n, between which the impedance is seen. The work slice has n rows of 2 n entries.
#[derive(Clone, Copy)]
struct Ends {
    n: usize,
    p: usize,
    q: usize,
    ghost within: { (n ≤ limit) × (p < n) × (q < n) },
}

impl Ends {
    // The inverse's entry in row i and column j, where it stands beside the n columns of the matrix.
    fn inverse_entry(self, i: usize, j: usize, work: &[f64]) -> Complex
        requires { (i < self.n) × (j < self.n) × (length work.now ≡ 2 * (self.n * (self.n + self.n))) }
        ensures { result ≡ right_sides self.n (entry_at (self.n + self.n) work.now) i j }
    {
        get(work, i * (self.n + self.n) + (self.n + j))
    }

    // The impedance from the inverse, where every number of it is finite.
    fn seen_across(self, work: &[f64]) -> Option<Complex>
        requires { length work.now ≡ 2 * (self.n * (self.n + self.n)) }
        ensures { result ≡ pair (of_thevenin (right_sides self.n (entry_at (self.n + self.n) work.now)) self.p self.q)
            (thevenin_of (right_sides self.n (entry_at (self.n + self.n) work.now)) self.p self.q) }
    {
        let first = self.inverse_entry(self.p, self.p, work);
        let second = self.inverse_entry(self.q, self.q, work);
        let own = cadd(first, second)?;
        let mutual = cmul(
            Complex { re: 2.0, im: 0.0 },
            self.inverse_entry(self.p, self.q, work),
        )?;
        csub(own, mutual)
    }

    // The matrix is inverted in the work slice, and the impedance read: the value, 13 or 20.
    fn inverted_across(self, mat: &[f64], work: &mut [f64]) -> Result<Complex, Refusal>
        requires { (length mat.now ≡ 2 * (self.n * self.n)) × (length work.old ≡ 2 * (self.n * (self.n + self.n)))
            × T (all_finite mat.now) }
        ensures { result ≡ answered (thevenin_of (inverse self.n (entry_at self.n mat.now)) self.p self.q)
            (work_refusal Unlimited (steps_of_impedance self.n (entry_at self.n mat.now) self.p self.q)) }
    {
        let n = self.n;
        fill_identity(work, n, mat);
        // n n row reductions are enough
        eliminate(work, n, n + n, n * n)?;
        self.seen_across(work).ok_or(Refusal::ComputedNotFinite)
    }
}

// The same of the rows at the front of a slice, in a work slice that may be longer, which is cleared.
pub fn impedance_between(
    front: &Front<'_>,
    p: usize,
    q: usize,
    work: &mut [f64],
) -> Result<Complex, Refusal>
    requires { (p < front.now.n) × (q < front.now.n) × (2 * (front.now.n * (front.now.n + front.now.n)) ≤ length work.old)
        × T (all_finite (take (2 * (front.now.n * front.now.n)) front.now.y.now)) }
    ensures { (result ≡ answered (thevenin_of (inverse front.now.n (entry_at front.now.n front.now.y.now)) p q)
        (work_refusal Unlimited (steps_of_impedance front.now.n (entry_at front.now.n front.now.y.now) p q)))
        × (work.new ≡ zeros (length work.old)) }
{
    let n = front.n;
    let a = 2 * (n * n);
    let e = 2 * (n * (n + n));
    let ends = Ends { n, p, q };
    let answer = ends.inverted_across(&front.y[0..a], &mut work[0..e]);
    clear(work);
    answer
}
