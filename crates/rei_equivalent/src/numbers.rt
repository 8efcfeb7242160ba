// Whether the numbers that `compute` is given, and those that it computes, are finite.
ghost use Rattle.std.specs.Prelude.{◌≡◌, ◌&&◌, ◌++◌};
ghost use Rattle.std.specs.Float.Ieee.Scale as scale;
ghost use Rattle.binary64.specs.Values.{all_finite};
ghost use Rattle.rei_equivalent.specs.Inner.Writing as inner;

use crate::matrix::SubMatrix;
use binary64::finite::{all_finite, finite};

// Whether the matrix and the injections are finite.
pub fn given_finite(y: &[f64], p: &[f64], q: &[f64]) -> bool
    ensures { result ≡ all_finite (y.now ++ (p.now ++ q.now)) }
{
    all_finite(y) && all_finite(p) && all_finite(q)
}

// Whether the sums p, in MW, and q, in MVAr, and all numbers that the spokes take are finite.
pub fn computed_finite(p: f64, q: f64, y: SubMatrix) -> bool
    ensures { result ≡ (scale.finite p && (scale.finite q && all_finite (inner.of_spokes_of y.entry))) }
{
    finite(p) && finite(q) && y.spokes_finite()
}
