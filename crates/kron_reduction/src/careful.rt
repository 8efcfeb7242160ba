// The rows at the front of a slice, and whether the removal of one computes finite numbers alone: told before anything is written.
ghost use Rattle.std.specs.Prelude.{◌≡◌, not, ◌&&◌, ◌++◌, ℕ, ◌*◌, ◌-◌, ◌≤◌, ◌<◌, T, length, take};
ghost use Rattle.std.specs.Float.Ieee.{lt};
ghost use Rattle.binary64.specs.Values.{all_finite};
ghost use Rattle.complex.specs.Arithmetic as spec;
ghost use Rattle.complex.specs.Inner.Ordinary.{ordinary_square, all_ordinary};
ghost use Rattle.complex.specs.Leaves.{pair};
ghost use Rattle.complex.specs.Matrices.{entry_at, zeros};
ghost use Rattle.refusals.specs.Refusals.{limit, outcome};
ghost use Rattle.kron_reduction.specs.Kron.{start, new_entry, removal_refusal};
ghost use Rattle.kron_reduction.specs.Inner.Removal.{of_entry, Tells, Fine};

use binary64::finite::{all_finite, finite};
use complex::Complex;
use complex::constants::DIVISION_LIMIT;
use complex::entry::get;
use complex::ordinary::{ORDINARY_SQUARE, all_ordinary};
use complex::raw::sqmag;
use complex::slices::clear;
use lists::copies::copy;
use refusals::Refusal;

// The n rows of n entries at the front of a slice.
#[derive(Clone, Copy)]
pub struct Front<'a> {
    pub n: usize,
    pub y: &'a [f64],
    ghost fits: { (n ≤ limit) × (2 * (n * n) ≤ length y.now) },
}

// The new entry, where every number on the way to it is finite.
fn entry_answer(ij: Complex, ik: Complex, kj: Complex, kk: Complex) -> Option<Complex>
    ensures { result ≡ pair (of_entry ij ik kj kk) (new_entry ij ik kj kk) }
{
    let product = complex::cmul(ik, kj)?;
    let change = complex::cdiv(product, kk)?;
    complex::csub(ij, change)
}

impl Front<'_> {
    // Whether the rows hold numbers of ordinary size alone.
    pub fn is_ordinary(&self) -> bool
        ensures { result ≡ all_ordinary (take (2 * (self.now.n * self.now.n)) self.now.y.now) }
    {
        all_ordinary(&self.y[0..2 * (self.n * self.n)])
    }

    // Whether they hold finite numbers alone, as those of ordinary size are.
    pub fn is_finite(&self) -> bool
        ensures { result ≡ all_finite (take (2 * (self.now.n * self.now.n)) self.now.y.now) }
    {
        all_finite(&self.y[0..2 * (self.n * self.n)])
    }

    // The rows are copied to `out`, +0 behind.
    pub fn copy_to(&self, out: &mut [f64])
        requires { length out.old ≡ length self.now.y.now }
        ensures { out.new
            ≡ take (2 * (self.now.n * self.now.n)) self.now.y.now ++ zeros (length self.now.y.now - 2 * (self.now.n * self.now.n)) }
    {
        let a = 2 * (self.n * self.n);
        let e = out.len();
        copy(&self.y[0..a], &mut out[0..a]);
        clear(&mut out[a..e]);
    }

    // The entry in row i and column j.
    #[tactic(auto, unfolding(complex::specs::Matrices::entry_at))]
    fn at(&self, i: usize, j: usize) -> Complex
        requires { (i < self.now.n) × (j < self.now.n) }
        ensures { result ≡ entry_at self.now.n self.now.y.now i j }
    {
        get(self.y, i * self.n + j)
    }

    // Whether the numbers of the new entry from row i and column j are finite: none is made of row and column k.
    fn place_finite(&self, k: usize, i: usize, j: usize) -> bool
        requires { (k < self.now.n) × (i < self.now.n) × (j < self.now.n) }
        ensures { Tells result (Fine k (entry_at self.now.n self.now.y.now) i j) }
    {
        i == k
            || j == k
            || entry_answer(self.at(i, j), self.at(i, k), self.at(k, j), self.at(k, k)).is_some()
    }

    // The same of row i.
    fn row_finite(&self, k: usize, i: usize) -> bool
        requires { (k < self.now.n) × (i < self.now.n) }
        ensures { Tells result ((j : ℕ) → j < self.now.n → Fine k (entry_at self.now.n self.now.y.now) i j) }
    {
        for j in 0..self.n {
            if !self.place_finite(k, i, j) {
                return false;
            }
        }
        true
    }

    // The same of all rows.
    fn rows_finite(&self, k: usize) -> bool
        requires { k < self.now.n }
        ensures { Tells result ((i : ℕ) → i < self.now.n → (j : ℕ) → j < self.now.n → Fine k (entry_at self.now.n self.now.y.now) i j) }
    {
        for i in 0..self.n {
            if !self.row_finite(k, i) {
                return false;
            }
        }
        true
    }

    // The squared magnitude of row k's own entry.
    fn own_square(&self, k: usize) -> f64
        requires { k < self.now.n }
        ensures { result ≡ spec.sqmag (entry_at self.now.n self.now.y.now k k) }
    {
        sqmag(self.at(k, k))
    }

    // The removal of row k is refused with 12 or 20. `ordinary` says that the rows are of ordinary size: then nothing is tried.
    pub fn row_refusal(&self, k: usize, ordinary: bool) -> Result<(), Refusal>
        requires { (k < self.now.n) × (T ordinary → T (all_ordinary (take (2 * (self.now.n * self.now.n)) self.now.y.now))) }
        ensures { result ≡ outcome (removal_refusal (start self.now.n (entry_at self.now.n self.now.y.now)) k) }
    {
        let d = self.own_square(k);
        if d < DIVISION_LIMIT {
            return Err(Refusal::SmallEntry);
        }
        if surely_finite(ordinary, d) || finite(d) && self.rows_finite(k) {
            Ok(())
        } else {
            Err(Refusal::ComputedNotFinite)
        }
    }
}

// Whether nothing need be tried: rows of ordinary size, divided by a square d that is not below it.
#[tactic(auto, unfolding(complex::specs::Inner::Ordinary::ordinary_square))]
fn surely_finite(ordinary: bool, d: f64) -> bool
    ensures { result ≡ (not (lt d ordinary_square) && ordinary) }
{
    !(d < ORDINARY_SQUARE) && ordinary
}
