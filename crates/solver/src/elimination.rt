// Gauss-Jordan elimination in a lent work slice, for the layers above: n rows of w entries, the system's n columns first, then w - n right
// sides. The functions here have a `requires`, which their callers prove.
ghost use Rattle.std.specs.Prelude.{◌≡◌, ◌||◌, cond, ℕ, ◌+◌, ◌*◌, ◌<◌, ◌≤◌, T, eqb, length};
ghost use Rattle.binary64.specs.Values.{all_finite};
ghost use Rattle.complex.specs.Entries.{entry};
ghost use Rattle.complex.specs.Matrices.{entry_at};
ghost use Rattle.lists.specs.Buses.{up_to};
ghost use Rattle.refusals.specs.Refusals.{limit};
ghost use Rattle.refusals.specs.declared.Refusal.TheVariants.{Singular};
ghost use Rattle.solver.specs.GaussJordan as spec;
ghost use Rattle.solver.specs.Solving.{operations};
ghost use Rattle.solver.specs.Steps as steps;
ghost use Rattle.solver.specs.Inner.Work.{BesideTurned, Told, ColumnDone, Ran, Met, with_row, less_factor, steps_of_clearing};

use crate::blocks::row_of;
use crate::rows;
use binary64::finite::all_finite;
use complex::complex_inv;
use complex::constants::DIVISION_LIMIT;
use complex::entry::get;
use lists::copies::copy;
use refusals::{LIMIT, Refusal};

// Column c's turn, in n rows of w entries.
// The slice is no field: a struct that holds a `&mut` owes in each method that the reference, n, w and c stay the same.
#[derive(Clone, Copy)]
struct Turn {
    n: usize,
    w: usize,
    c: usize,
    ghost wide: { n ≤ w },
    ghost here: { c < n },
}

impl Turn {
    // Of two rows, the one that is held: the first, unless the other's squared magnitude is strictly greater.
    #[tactic(auto, unfolding(crate::specs::GaussJordan::stays, complex::specs::Matrices::entry_at))]
    fn stronger(self, work: &[f64], held: usize, next: usize) -> usize
        requires { (length work.now ≡ 2 * (self.n * self.w)) × (held < self.n) × (next < self.n) }
        ensures { result ≡ cond (spec.stays (operations.weight (entry_at self.w work.now held self.c))
            (operations.weight (entry_at self.w work.now next self.c))) held next }
    {
        let h = complex::raw::sqmag(get(work, held * self.w + self.c));
        let x = complex::raw::sqmag(get(work, next * self.w + self.c));
        if h < x { next } else { held }
    }

    // The pivot's row.
    fn pivot_row(self, work: &[f64]) -> usize
        requires { length work.now ≡ 2 * (self.n * self.w) }
        ensures { (result ≡ spec.pivot_row operations self.n (entry_at self.w work.now) self.c) × (result < self.n) }
    {
        let mut held = self.c;
        let mut next = self.c + 1;
        // no `for`: the specification has the search hand out its row by `break`
        loop {
            if next == self.n {
                break held;
            }
            held = self.stronger(work, held, next);
            next += 1;
        }
    }

    // Rows c and p change places; `row` then holds row c.
    fn swap(self, work: &mut [f64], p: usize, row: &mut [f64])
        requires { (length work.old ≡ 2 * (self.n * self.w)) × (p < self.n) × (length row.old ≡ 2 * self.w) }
        ensures { ((i j : ℕ) → j < self.w
            → entry_at self.w work.new i j ≡ spec.swapped operations self.c p (entry_at self.w work.old) i j)
            × ((j : ℕ) → j < self.w → entry row.new j ≡ entry_at self.w work.new self.c j) }
    {
        copy(&work[row_of(self.n, self.w, self.c)], row);
        rows::exchange(&mut work[row_of(self.n, self.w, p)], row, self.w);
        copy(row, &mut work[row_of(self.n, self.w, self.c)]);
    }

    // Whether row i is not reduced: it is row c, or its factor, which stands at place `at`, is skipped.
    #[tactic(auto, unfolding(complex::specs::Matrices::entry_at))]
    fn left_alone(self, work: &[f64], i: usize, at: usize) -> bool
        requires { (length work.now ≡ 2 * (self.n * self.w)) × (i < self.n) × (at ≡ i * self.w + self.c) }
        ensures { result ≡ (eqb i self.c || operations.skips (entry_at self.w work.now i self.c)) }
    {
        i == self.c || rows::skipped(get(work, at))
    }

    // Row i loses its factor, which stands at place `at`, times the pivot row.
    fn reduce_row(self, work: &mut [f64], i: usize, at: usize, pivot: &[f64])
        requires { (length work.old ≡ 2 * (self.n * self.w)) × (i < self.n) × (BesideTurned self.w pivot.now) × (at ≡ i * self.w + self.c) }
        ensures { (r j : ℕ) → j < self.w → entry_at self.w work.new r j
            ≡ with_row i (less_factor self.c (entry pivot.now) (entry_at self.w work.old) i) (entry_at self.w work.old) r j }
    {
        let factor = get(work, at);
        rows::subtract(&mut work[row_of(self.n, self.w, i)], self.w, factor, pivot);
    }

    // All rows but row c, which is the pivot row, are reduced by it, with so many row reductions allowed. Answers how many of these are
    // left.
    fn reduce_others(
        self,
        work: &mut [f64],
        pivot: &[f64],
        allowed: usize,
    ) -> Result<usize, Refusal>
        requires { (length work.old ≡ 2 * (self.n * self.w))
            × (BesideTurned self.w pivot.now)
            × ((j : ℕ) → j < self.w → entry pivot.now j ≡ entry_at self.w work.old self.c j) }
        ensures { (Told allowed
            (steps.steps_of_rows operations steps.workings (entry_at self.w work.old) self.c (up_to self.n) (up_to self.w)) work.old
            work.new result)
            × ((left : ℕ) → result ≡ Ok left → (i j : ℕ) → i < self.n → j < self.w
            → entry_at self.w work.new i j ≡ spec.reduced operations self.c (entry_at self.w work.old) i j)
            × (result ≡ Err Singular → ⊥) }
    {
        let mut left = allowed;
        // the place of row i's factor, carried on: worked out anew in each row it costs the loop over the row a register
        let mut at = self.c;
        for i in 0..self.n {
            if !self.left_alone(work, i, at) {
                if left == 0 {
                    return Err(Refusal::BeyondAllowance);
                }
                self.reduce_row(work, i, at, pivot);
                left -= 1;
            }
            at += self.w;
        }
        Ok(left)
    }

    // Row c, which the first half of `row` holds, is scaled by its pivot's inverse, if that is finite, and the others are reduced.
    fn clear(self, work: &mut [f64], row: &mut [f64], allowed: usize) -> Result<usize, Refusal>
        requires { (length work.old ≡ 2 * (self.n * self.w))
            × (length row.old ≡ 4 * self.w)
            × ((j : ℕ) → j < self.w → entry row.old j ≡ entry_at self.w work.old self.c j) }
        ensures { (Told allowed (steps_of_clearing self.n self.w self.c (entry_at self.w work.old)) work.old work.new result)
            × ((left : ℕ) → result ≡ Ok left → (i j : ℕ) → i < self.n → j < self.w
            → entry_at self.w work.new i j ≡ spec.cleared operations self.c (entry_at self.w work.old) i j)
            × (result ≡ Err Singular → ⊥) }
    {
        let inverse = complex_inv(get(row, self.c)).ok_or(Refusal::ComputedNotFinite)?;
        let place = row_of(self.n, self.w, self.c);
        rows::scale(row, self.w, inverse, &mut work[place]);
        self.reduce_others(work, row, allowed)
    }

    // The whole turn; `row` has room for a row and the same row turned. Where the pivot is too small, the rows have changed places, and no
    // more.
    fn run(self, work: &mut [f64], row: &mut [f64], allowed: usize) -> Result<usize, Refusal>
        requires { (length work.old ≡ 2 * (self.n * self.w)) × (length row.old ≡ 4 * self.w) }
        ensures { ColumnDone self.n self.w self.c allowed result work.old work.new }
    {
        let p = self.pivot_row(work);
        let e = 2 * self.w;
        self.swap(work, p, &mut row[0..e]);
        if complex::raw::sqmag(get(row, self.c)) < DIVISION_LIMIT {
            return Err(Refusal::Singular);
        }
        self.clear(work, row, allowed)
    }
}

// Each column in turn, with so many row reductions allowed. Answers how many of these are left.
fn columns(
    work: &mut [f64],
    n: usize,
    w: usize,
    row: &mut [f64],
    allowed: usize,
) -> Result<usize, Refusal>
    requires { (n ≤ w) × (length work.old ≡ 2 * (n * w)) × (length row.old ≡ 4 * w) }
    ensures { Ran n w allowed result work.old work.new }
{
    let mut left = allowed;
    for c in 0..n {
        left = Turn { n, w, c }.run(work, row, left)?;
    }
    Ok(left)
}

// All columns, with so many row reductions allowed. Answers how many of these are left. Refused: 13 at a pivot that is too small, 18
// before the row reduction that would exceed the allowance, 20 with a number that is not finite. The slice is finite at entry; it is
// looked at once more where the work ends.
pub fn eliminate(work: &mut [f64], n: usize, w: usize, allowed: usize) -> Result<usize, Refusal>
    requires { (n ≤ w) × (w ≤ 2 * limit) × (length work.old ≡ 2 * (n * w)) × T (all_finite work.old) }
    ensures { Met n w allowed result work.old work.new }
{
    // fixed memory, as no library crate takes any from the heap
    let mut buffer = [0.0; 8 * LIMIT];
    let e = 4 * w;
    let end = columns(work, n, w, &mut buffer[0..e], allowed);
    // all of the slice, by its sizes: to keep its length too would cost the loops above a register
    if all_finite(&work[0..2 * (n * w)]) {
        end
    } else {
        Err(Refusal::ComputedNotFinite)
    }
}
