// The sign cleared, the root, and the magnitude of a complex number: finite, or none.
ghost use Rattle.std.specs.Prelude.{◌≡◌, [], ◌∷◌};
ghost use Rattle.complex.specs.Leaves as leaves;

use crate::{Complex, raw};
use binary64::finite::finite;

// The number itself, where it is finite.
fn if_finite(x: f64) -> Option<f64>
    ensures { result ≡ leaves.real (x ∷ []) x }
{
    finite(x).then_some(x)
}

// The sign cleared, of a zero too.
pub fn abs(x: f64) -> Option<f64>
    ensures { result ≡ leaves.absolute x }
{
    if_finite(raw::abs(x))
}

// The binary64 nearest the exact root; none of a negative number, but of -0, whose root is -0.
pub fn sqrt(x: f64) -> Option<f64>
    ensures { result ≡ leaves.square_root x }
{
    if_finite(binary64::sqrt(x))
}

// The magnitude of c: the root of re re + im im, each step rounded.
pub fn magnitude(c: Complex) -> Option<f64>
    ensures { result ≡ leaves.magnitude_of c }
{
    if_finite(raw::magnitude(c))
}
