// Complex numbers in binary64: one record of two f64, passed and returned by value. The operations answer a finite number, or none where a
// number they compute is not finite.
#![tactic(auto)]

ghost use Rattle.std.specs.Prelude.{◌≡◌, ◌&&◌};
ghost use Rattle.std.specs.Float.Ieee.Scale as scale;
ghost use Rattle.complex.specs.Computed as computed;
ghost use Rattle.complex.specs.Leaves as leaves;

use binary64::finite::finite;

pub mod constants;
pub mod entry;
pub mod magnitude;
pub mod ordinary;
pub mod raw;
pub mod slices;

#[derive(Clone, Copy)]
pub struct Complex {
    pub re: f64,
    pub im: f64,
}

// Whether both parts are finite.
pub fn both_finite(c: Complex) -> bool
    ensures { result ≡ (scale.finite c.re && scale.finite c.im) }
{
    finite(c.re) && finite(c.im)
}

// The number itself, where both parts are finite.
fn if_finite(c: Complex) -> Option<Complex>
    ensures { result ≡ leaves.pair (computed.of_parts c) c }
{
    both_finite(c).then_some(c)
}

// a + b, part by part.
pub fn cadd(a: Complex, b: Complex) -> Option<Complex>
    ensures { result ≡ leaves.sum a b }
{
    if_finite(raw::cadd(a, b))
}

// a - b, part by part.
pub fn csub(a: Complex, b: Complex) -> Option<Complex>
    ensures { result ≡ leaves.difference a b }
{
    if_finite(raw::csub(a, b))
}

// -a: the sign of each part turned, of a zero too.
pub fn cneg(a: Complex) -> Option<Complex>
    ensures { result ≡ leaves.negative a }
{
    if_finite(raw::cneg(a))
}

// a b, each product and sum rounded once.
pub fn cmul(a: Complex, b: Complex) -> Option<Complex>
    ensures { result ≡ leaves.product a b }
{
    if_finite(raw::cmul(a, b))
}

// a / b. None also where the square of b's magnitude is not finite, or is below 1e-300.
pub fn cdiv(a: Complex, b: Complex) -> Option<Complex>
    ensures { result ≡ leaves.quotient a b }
{
    if !finite(raw::sqmag(b)) {
        return None;
    }
    if_finite(raw::cdiv(a, b))
}

// 1 / b, as `cdiv` has it.
pub fn complex_inv(b: Complex) -> Option<Complex>
    ensures { result ≡ leaves.inverse b }
{
    cdiv(Complex { re: 1.0, im: 0.0 }, b)
}
