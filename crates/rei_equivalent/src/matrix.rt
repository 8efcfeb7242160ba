// The matrix of the buses that an equivalent takes in.
ghost use Rattle.std.specs.Prelude.{◌≡◌, ◌<◌, ◌≤◌, ◌*◌, length};
ghost use Rattle.complex.specs.Matrices as matrices;
ghost use Rattle.refusals.specs.Refusals as refusals;

use complex::Complex;
use complex::entry::get;

// The admittances of n buses, in per unit: row by row, real then imaginary.
#[derive(Clone, Copy)]
pub struct SubMatrix<'a> {
    pub n: usize,
    pub y: &'a [f64],
    ghost sizes: { (0 < n)
        × (n ≤ refusals.limit)
        × (length y.now ≡ 2 * (n * n)) },
}

impl SubMatrix<'_> {
    // The admittance at row i, column j.
    pub fn entry(self, i: usize, j: usize) -> Complex
        requires { (i < self.n)
            × (j < self.n) }
        ensures { result ≡ matrices.entry_at self.entry.n self.entry.y.now i j }
    {
        get(self.y, i * self.n + j)
    }
}
