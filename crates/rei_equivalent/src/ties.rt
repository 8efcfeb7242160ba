// The ties that the buses keep between them; admittances in per unit. The two slices and the count of ties stay parameters: as fields of
// one struct, each slice would stand behind two references in every clause.
ghost use Rattle.std.specs.Prelude.{◌≡◌, cond, ◌<◌, ◌≤◌, ◌*◌, ◌+◌, ◌-◌, length, set, drop};
ghost use Rattle.complex.specs.Entries as entries;
ghost use Rattle.complex.specs.Matrices as matrices;
ghost use Rattle.lists.specs.Buses.{up_to};
ghost use Rattle.complex.specs.Arithmetic as arithmetic;
ghost use Rattle.rei_equivalent.specs.Rei as spec;
ghost use Rattle.rei_equivalent.specs.Inner.Writing as writing;

use crate::matrix::SubMatrix;
use complex::Complex;
use complex::constants::TIE_THRESHOLD;
use complex::entry::put;
use complex::raw::{abs, cneg};
use complex::slices::clear;

impl SubMatrix<'_> {
    // All ties, and zeros behind them; answers how many there are.
    pub fn tie_all(self, buses: &[usize], ends: &mut [usize], ties: &mut [f64]) -> usize
        requires buses { length buses.now ≡ self.n }
        requires room { (length ends.old ≡ spec.tie_room self.n)
            × (length ties.old ≡ spec.tie_room self.n) }
        ensures { writing.TiesWritten self.entry.n self.entry.y.now buses.now result ends.new ties.new }
    {
        let count = self.tie_rows(buses, ends, ties);
        let behind = 2 * count;
        ends[behind..].fill(0);
        clear(&mut ties[behind..]);
        count
    }

    // Row after row, from the front; answers how many there are.
    fn tie_rows(self, buses: &[usize], ends: &mut [usize], ties: &mut [f64]) -> usize
        requires buses { length buses.now ≡ self.n }
        requires room { (length ends.old ≡ spec.tie_room self.n)
            × (length ties.old ≡ spec.tie_room self.n) }
        ensures { writing.RowWritten (spec.all_ties self.entry.n self.entry.y.now buses.now) 0
            ends.old ties.old result ends.new ties.new }
    {
        let mut count = 0;
        for i in 0..self.n {
            count = self.tie_row(i, buses, ends, ties, count);
        }
        count
    }

    // Those of row i, written from place `from` on; answers the place behind them.
    fn tie_row(
        self,
        i: usize,
        buses: &[usize],
        ends: &mut [usize],
        ties: &mut [f64],
        from: usize,
    ) -> usize
        requires row { (i < self.n)
            × (length buses.now ≡ self.n) }
        requires room { (2 * (from + (self.n - (i + 1))) ≤ length ends.old)
            × (length ties.old ≡ length ends.old) }
        ensures { writing.RowWritten
            (spec.row_ties buses.now (matrices.entry_at self.entry.n self.entry.y.now i) i (drop (i + 1) (up_to self.entry.n)))
            from ends.old ties.old result ends.new ties.new }
    {
        let mut count = from;
        for j in i + 1..self.n {
            count = tie_one(buses[i], buses[j], self.entry(i, j), ends, ties, count);
        }
        count
    }
}

// A tie at place `count` where the entry makes one; answers the place behind it.
fn tie_one(
    first: usize,
    second: usize,
    y: Complex,
    ends: &mut [usize],
    ties: &mut [f64],
    count: usize,
) -> usize
    requires { (2 * count + 1 < length ends.old)
        × (length ties.old ≡ length ends.old) }
    ensures value { result ≡ cond (spec.is_tie y) (count + 1) count }
    ensures ends_after { ends.new ≡ cond (spec.is_tie y) (set (set ends.old (2 * count) first) (2 * count + 1) second) ends.old }
    ensures ties_after { ties.new ≡ cond (spec.is_tie y) (entries.put ties.old count (arithmetic.cneg y)) ties.old }
{
    if !is_tie(y) {
        return count;
    }
    ends[2 * count] = first;
    ends[2 * count + 1] = second;
    put(ties, count, cneg(y));
    count + 1
}

// Whether a part is above TIE_THRESHOLD, in per unit, in absolute value.
fn is_tie(y: Complex) -> bool
    ensures { result ≡ spec.is_tie y }
{
    abs(y.re) > TIE_THRESHOLD || abs(y.im) > TIE_THRESHOLD
}
