// Blocks of the work slice: n rows of w entries, of which the m columns from `at` on are put there or taken out.
// The functions here have a `requires`, which their callers prove.
ghost use Rattle.std.specs.Prelude.{◌≡◌, ℕ, ◌+◌, ◌*◌, ◌<◌, ◌≤◌, length};
ghost use Rattle.std.specs.Int.{w64};
ghost use Rattle.std.proofs.Common.{Fits};
ghost use Rattle.complex.specs.Matrices.{entry_at, grid};
ghost use Rattle.solver.specs.Inner.Work.{Block, Lies, with_row, placed, with_identity, right_sides};

use complex::Complex;
use complex::entry::put;
use lists::copies::copy;
use std::ops::Range;

// The m columns from `at` on, of n rows of w entries.
#[derive(Clone, Copy)]
pub struct Columns {
    pub n: usize,
    pub w: usize,
    pub at: usize,
    pub m: usize,
    ghost within: { at + m ≤ w },
}

// Where row i lies in a slice of n rows of w entries.
pub fn row_of(n: usize, w: usize, i: usize) -> Range<usize>
    requires { (i < n) × Fits w64 (2 * (n * w)) }
    ensures { Lies n w 0 w i result.start result.end }
{
    Columns { n, w, at: 0, m: w }.row(i)
}

impl Columns {
    // Where row i's entries in these columns lie, in the slice.
    pub fn row(self, i: usize) -> Range<usize>
        requires { (i < self.n) × Fits w64 (2 * (self.n * self.w)) }
        ensures { Lies self.n self.w self.at self.m i result.start result.end }
    {
        let start = 2 * (i * self.w + self.at);
        let end = start + 2 * self.m;
        start..end
    }

    fn place_row(self, work: &mut [f64], i: usize, from: &[f64])
        requires { (Block self.n self.w self.m (length work.old) (length from.now)) × (i < self.n) }
        ensures { (r j : ℕ) → j < self.w → entry_at self.w work.new r j
            ≡ with_row i (placed self.at self.m (entry_at self.m from.now) (entry_at self.w work.old) i) (entry_at self.w work.old) r j }
    {
        copy(&from[row_of(self.n, self.m, i)], &mut work[self.row(i)]);
    }

    // The matrix `from`, n rows of m entries, is put into them.
    pub fn place(self, work: &mut [f64], from: &[f64])
        requires { Block self.n self.w self.m (length work.old) (length from.now) }
        ensures { (i j : ℕ) → i < self.n → j < self.w → entry_at self.w work.new i j
            ≡ placed self.at self.m (entry_at self.m from.now) (entry_at self.w work.old) i j }
    {
        for i in 0..self.n {
            self.place_row(work, i, from);
        }
    }

    fn take_row(self, work: &[f64], i: usize, to: &mut [f64])
        requires { (Block self.n self.w self.m (length work.now) (length to.old)) × (i < self.n) }
        ensures { (r j : ℕ) → j < self.m → entry_at self.m to.new r j
            ≡ with_row i (right_sides self.at (entry_at self.w work.now) i) (entry_at self.m to.old) r j }
    {
        copy(&work[self.row(i)], &mut to[row_of(self.n, self.m, i)]);
    }

    // They are copied to `to`, n rows of m entries.
    pub fn take(self, work: &[f64], to: &mut [f64])
        requires { Block self.n self.w self.m (length work.now) (length to.old) }
        ensures { to.new ≡ grid self.n self.m (right_sides self.at (entry_at self.w work.now)) }
    {
        for i in 0..self.n {
            self.take_row(work, i, to);
        }
    }

    // The identity's ones in the first n of them: in row i, column at + i becomes (1, 0).
    pub fn place_ones(self, work: &mut [f64])
        requires { (length work.old ≡ 2 * (self.n * self.w)) × (self.n ≤ self.m) }
        ensures { (i j : ℕ) → i < self.n → j < self.w
            → entry_at self.w work.new i j ≡ with_identity self.at (entry_at self.w work.old) i j }
    {
        for i in 0..self.n {
            put(
                work,
                i * self.w + (self.at + i),
                Complex { re: 1.0, im: 0.0 },
            );
        }
    }
}
