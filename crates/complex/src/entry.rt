// The complex number at an index of a lent slice of f64, real then imaginary. Indices count complex numbers.
ghost use Rattle.std.specs.Prelude.{◌≡◌, ◌<◌, ◌*◌, ◌+◌, length};
ghost use Rattle.complex.specs.Entries as spec;

use crate::Complex;

// The complex number in place i, counted in complex numbers.
pub fn get(s: &[f64], i: usize) -> Complex
    requires { 2 * i + 1 < length s.now }
    ensures { result ≡ spec.entry s.now i }
{
    Complex {
        re: s[2 * i],
        im: s[2 * i + 1],
    }
}

// Writes a complex number to place i, counted in complex numbers.
pub fn put(s: &mut [f64], i: usize, c: Complex)
    requires { 2 * i + 1 < length s.old }
    ensures { s.new ≡ spec.put s.old i c }
{
    s[2 * i] = c.re;
    s[2 * i + 1] = c.im;
}
