// Arithmetic that does not look whether its numbers are finite, for the rows of the layers above: their callers test what a row holds at
// the end. Callers of the library take the operations of the crate's root and of `magnitude`.
ghost use Rattle.std.specs.Prelude.{◌≡◌};
ghost use Rattle.complex.specs.Arithmetic as spec;
ghost use Rattle.complex.specs.Magnitude as magnitudes;

use crate::Complex;
use crate::constants::DIVISION_LIMIT;

// a + b, part by part.
pub fn cadd(a: Complex, b: Complex) -> Complex
    ensures { result ≡ spec.cadd a b }
{
    Complex {
        re: a.re + b.re,
        im: a.im + b.im,
    }
}

// a - b, part by part.
pub fn csub(a: Complex, b: Complex) -> Complex
    ensures { result ≡ spec.csub a b }
{
    Complex {
        re: a.re - b.re,
        im: a.im - b.im,
    }
}

// -a: the sign of each part turned, of a zero too.
pub fn cneg(a: Complex) -> Complex
    ensures { result ≡ spec.cneg a }
{
    Complex {
        re: -a.re,
        im: -a.im,
    }
}

// a b, each product and sum rounded once.
pub fn cmul(a: Complex, b: Complex) -> Complex
    ensures { result ≡ spec.cmul a b }
{
    Complex {
        re: a.re * b.re - a.im * b.im,
        im: a.re * b.im + a.im * b.re,
    }
}

// The square of the magnitude.
pub fn sqmag(a: Complex) -> f64
    ensures { result ≡ spec.sqmag a }
{
    a.re * a.re + a.im * a.im
}

// A divisor whose squared magnitude is below 1e-300 gives (inf, inf). A NaN there is not below it.
pub fn cdiv(a: Complex, b: Complex) -> Complex
    ensures { result ≡ spec.cdiv a b }
{
    let d = b.re * b.re + b.im * b.im;
    if d < DIVISION_LIMIT {
        return Complex {
            re: 1.0 / 0.0,
            im: 1.0 / 0.0,
        };
    }
    Complex {
        re: (a.re * b.re + a.im * b.im) / d,
        im: (a.im * b.re - a.re * b.im) / d,
    }
}

// The sign cleared, of a zero too.
pub fn abs(x: f64) -> f64
    ensures { result ≡ magnitudes.abs x }
{
    if x > 0.0 { x } else { 0.0 - x }
}

// The magnitude of c: the root of re re + im im, each step rounded.
pub fn magnitude(c: Complex) -> f64
    ensures { result ≡ magnitudes.magnitude c }
{
    binary64::sqrt(c.re * c.re + c.im * c.im)
}
