// The spokes, from the fictitious bus to each bus; admittances in per unit.
ghost use Rattle.std.specs.Prelude.{◌≡◌, ◌<◌, ◌≤◌, ◌*◌, length, pos};
ghost use Rattle.std.specs.Float.{binary64};
ghost use Rattle.std.specs.Float.Ieee.{lt, of_int};
ghost use Rattle.binary64.specs.Values.{all_finite};
ghost use Rattle.complex.specs.Magnitude as magnitudes;
ghost use Rattle.complex.specs.Constants.{small_magnitude};
ghost use Rattle.refusals.specs.Refusals as refusals;
ghost use Rattle.rei_equivalent.specs.Rei as spec;
ghost use Rattle.rei_equivalent.specs.Inner.Writing as inner;

use crate::matrix::SubMatrix;
use binary64::finite::finite;
use complex::Complex;
use complex::constants::SMALL_MAGNITUDE;
use complex::entry::put;
use complex::raw::{magnitude, sqmag};

impl SubMatrix<'_> {
    // A spoke for each bus, from the diagonal of the matrix.
    pub fn spoke_all(self, spokes: &mut [f64])
        requires { length spokes.old ≡ 2 * self.n }
        ensures { spokes.new ≡ inner.spokes_of self.entry }
    {
        let count = self.n as f64;
        for i in 0..self.n {
            put(spokes, i, spoke(count, self.entry(i, i)));
        }
    }

    // Whether all numbers that the spokes take are finite.
    pub fn spokes_finite(self) -> bool
        ensures { result ≡ all_finite (inner.of_spokes_of self.entry) }
    {
        for i in 0..self.n {
            if !spoke_finite(self.n, self.entry(i, i)) {
                return false;
            }
        }
        true
    }
}

// The diagonal entry over the number of buses, in per unit; none where its magnitude is not above SMALL_MAGNITUDE.
fn spoke(n: f64, y: Complex) -> Complex
    ensures { result ≡ spec.spoke n y }
{
    if !has_spoke(y) {
        return Complex { re: 0.0, im: 0.0 };
    }
    Complex {
        re: y.re / n,
        im: y.im / n,
    }
}

// Whether the magnitude is above SMALL_MAGNITUDE. Of a square above 2^-78 no root is taken: it is not below 2^-39, which is above
// SMALL_MAGNITUDE.
fn has_spoke(y: Complex) -> bool
    ensures { result ≡ lt small_magnitude (magnitudes.magnitude y) }
{
    sqmag(y) > 3.308722450212111e-24 || magnitude(y) > SMALL_MAGNITUDE
}

// Whether all numbers that one spoke of n buses takes are finite. The squared magnitude tells it: the root of a finite one is
// finite, and so are the parts, and their shares.
fn spoke_finite(n: usize, y: Complex) -> bool
    requires { (0 < n)
        × (n ≤ refusals.limit) }
    ensures { result ≡ all_finite (spec.of_spoke (of_int binary64 (pos n)) y) }
{
    finite(sqmag(y))
}
