// Row routines. A row is a part of a slice of f64: w complex entries in 2 w numbers. A pivot row has 2 w numbers more behind it, the same
// row turned.
ghost use Rattle.std.specs.Prelude.{◌≡◌, ℕ, ◌*◌, ◌<◌, length};
ghost use Rattle.complex.specs.Arithmetic as arithmetic;
ghost use Rattle.complex.specs.Entries.{entry};
ghost use Rattle.solver.specs.Solving as spec;
ghost use Rattle.solver.specs.Inner.Work.{turned, BesideTurned};

use complex::Complex;
use complex::constants::DIVISION_LIMIT;
use complex::entry::{get, put};

// Two rows of w entries change places. By a loop: a call of std's `swap_with_slice` in each column costs the elimination its registers.
pub fn exchange(a: &mut [f64], b: &mut [f64], w: usize)
    requires { (length a.old ≡ 2 * w) × (length b.old ≡ 2 * w) }
    ensures { (a.new ≡ b.old) × (b.new ≡ a.old) }
{
    for j in 0..w {
        let x = get(a, j);
        let y = get(b, j);
        put(a, j, y);
        put(b, j, x);
    }
}

// The first w entries are multiplied, and stored in `to` and, turned, behind themselves too.
pub fn scale(row: &mut [f64], w: usize, by: Complex, to: &mut [f64])
    requires { (length row.old ≡ 4 * w) × (length to.old ≡ 2 * w) }
    ensures { (BesideTurned w row.new)
        × ((q : ℕ) → q < w → entry row.new q ≡ arithmetic.cmul (entry row.old q) by)
        × ((q : ℕ) → q < w → entry to.new q ≡ entry row.new q) }
{
    for j in 0..w {
        let p = complex::raw::cmul(get(row, j), by);
        put(row, j, p);
        put(row, w + j, turn(p));
        put(to, j, p);
    }
}

// A factor too small for its row to be reduced. A NaN part is not.
#[tactic(auto, unfolding(crate::specs::Solving::skipped, complex::specs::Constants::division_limit))]
pub fn skipped(f: Complex) -> bool
    ensures { result ≡ spec.skipped f }
{
    complex::raw::abs(f.re) < DIVISION_LIMIT && complex::raw::abs(f.im) < DIVISION_LIMIT
}

// Times the imaginary unit.
#[tactic(auto, unfolding(crate::specs::Inner::Work::turned))]
fn turn(p: Complex) -> Complex
    ensures { result ≡ turned p }
{
    Complex {
        re: -p.im,
        im: p.re,
    }
}

// f p, where t is p turned: both parts are computed alike, so that they are one vector.
#[tactic(auto, using(crate::proofs::TurnedRows::turned_product))]
fn product(f: Complex, p: Complex, t: Complex) -> Complex
    requires { t ≡ turned p }
    ensures { result ≡ arithmetic.cmul f p }
{
    Complex {
        re: f.re * p.re + f.im * t.re,
        im: f.re * p.im + f.im * t.im,
    }
}

// The row loses its factor times the pivot row.
pub fn subtract(row: &mut [f64], w: usize, factor: Complex, pivot: &[f64])
    requires { (length row.old ≡ 2 * w) × (BesideTurned w pivot.now) }
    ensures { (q : ℕ) → q < w → entry row.new q
        ≡ arithmetic.csub (entry row.old q) (arithmetic.cmul factor (entry pivot.now q)) }
{
    for j in 0..w {
        let p = product(factor, get(pivot, j), get(pivot, w + j));
        put(row, j, complex::raw::csub(get(row, j), p));
    }
}
