// The removal of buses from a matrix in a lent slice. What each function requires, the calls above have tested.
ghost use Rattle.std.specs.Prelude.{◌≡◌, ◌&&◌, ℕ, ◌+◌, ◌*◌, ◌-◌, ◌≤◌, ◌<◌, T, length, get_or, take};
ghost use Rattle.complex.specs.Entries.{entry};
ghost use Rattle.complex.specs.Matrices.{entry_at};
ghost use Rattle.refusals.specs.Refusals.{limit};
ghost use Rattle.lists.specs.Buses.{found_in, rising, all_below};
ghost use Rattle.kron_reduction.specs.Kron.{new_entry, kron};
ghost use Rattle.complex.specs.Inner.Ordinary.{all_ordinary};
ghost use Rattle.kron_reduction.specs.Reducer.{present};
ghost use Rattle.kron_reduction.specs.Inner.Removal.{old_row, Holds, RemovedOne, RemovedAll};

use crate::careful::Front;
use crate::{KronReducer, Removals};
use complex::Complex;
use complex::entry::{get, put};
use complex::raw::{cdiv, cmul, csub};
use refusals::Refusal;

// Where a bus stands among the active ones, or nothing. A row is below 256, so a record holds it in a byte.
pub fn find_bus(active: &[u8], bus: usize) -> Option<usize>
    ensures { result ≡ found_in bus active.now }
{
    active.iter().position(|row| *row as usize == bus)
}

// Whether the buses rise and are all below the size at making.
pub fn in_order(made: usize, buses: &[u8]) -> bool
    ensures { result ≡ (rising buses.now && all_below made buses.now) }
{
    let mut low = 0;
    for place in buses {
        let bus = *place as usize;
        if bus < low || bus >= made {
            return false;
        }
        low = bus + 1;
    }
    true
}

// Of n active buses the one in row k drops out.
fn close_places(active: &mut [u8], n: usize, k: usize)
    requires { (k < n) × (n ≤ length active.old) }
    ensures { ((p : ℕ) → p < n - 1 → get_or active.new p 0 ≡ get_or active.old (old_row k p) 0)
        × (get_or active.new (n - 1) 0 ≡ 0)
        × ((p : ℕ) → n ≤ p → get_or active.new p 0 ≡ get_or active.old p 0) }
{
    active.copy_within(k + 1..n, k);
    active[n - 1] = 0;
}

// Kron's formula.
fn new_entry(ij: Complex, ik: Complex, kj: Complex, kk: Complex) -> Complex
    ensures { result ≡ new_entry ij ik kj kk }
{
    csub(ij, cdiv(cmul(ik, kj), kk))
}

// x itself. The remainder is for the compiler: it sees a distance that is small and not 0, so that a loop's writes stay behind its reads,
// and works out two columns at a time.
fn near(x: usize) -> usize
    requires { (0 < x) × (x ≤ 131072) }
    ensures { result ≡ x }
{
    (x - 1) % 131072 + 1
}

// Row k of n, as it stood before the others are reduced by it.
#[derive(Clone, Copy)]
struct Pivot<'a> {
    n: usize,
    k: usize,
    row: &'a [f64],
    ghost whole: { (n ≤ limit) × (k < n) × (length row.now ≡ 2 * n) },
}

impl Pivot<'_> {
    // The columns first .. end of a row without column k, of the old columns d further on, in place: `s` begins with the new row, the old
    // one `at` entries further on, and far is at + d. Column q is written to place q, and the old columns still to be read stand behind
    // q + far, so nothing unread is overwritten; column k's own entry is read before them all.
    fn reduce_columns(
        &self,
        d: usize,
        first: usize,
        end: usize,
        at: usize,
        far: usize,
        s: &mut [f64],
    )
        requires { ((q : ℕ) → first ≤ q → q < end → old_row self.now.k q ≡ q + d)
            × (first ≤ end)
            × (end + d ≤ self.now.n)
            × (far ≡ at + d)
            × (2 * (end + far) ≤ length s.old)
            × (2 * (at + self.now.k) + 1 < length s.old) }
        ensures { ((q : ℕ) → first ≤ q → q < end → entry s.new q
            ≡ new_entry (entry s.old (at + old_row self.now.k q)) (entry s.old (at + self.now.k))
            (entry self.now.row.now (old_row self.now.k q)) (entry self.now.row.now self.now.k))
            × ((q : ℕ) → q < first → entry s.new q ≡ entry s.old q)
            × ((q : ℕ) → end ≤ q → entry s.new q ≡ entry s.old q) }
    {
        let row = self.row;
        let ik = get(s, at + self.k);
        let kk = get(row, self.k);
        for q in first..end {
            put(s, q, new_entry(get(s, q + far), ik, get(row, q + d), kk));
        }
    }

    // The columns before k. Row 0's stay where they are; they have a call of their own, for `near` is never 0.
    fn left_columns(&self, at: usize, s: &mut [f64])
        requires { (at ≤ limit * limit) × (2 * (at + self.now.k) + 1 < length s.old) }
        ensures { ((q : ℕ) → q < self.now.k → entry s.new q
            ≡ new_entry (entry s.old (at + old_row self.now.k q)) (entry s.old (at + self.now.k))
            (entry self.now.row.now (old_row self.now.k q)) (entry self.now.row.now self.now.k))
            × ((q : ℕ) → self.now.k ≤ q → entry s.new q ≡ entry s.old q) }
    {
        if at == 0 {
            self.reduce_columns(0, 0, self.k, 0, 0, s);
        } else {
            self.reduce_columns(0, 0, self.k, at, near(at), s);
        }
    }

    // A row of n entries that begins `at` entries into s, reduced by row k, stands without column k at the front of s.
    fn reduce_row(&self, at: usize, s: &mut [f64])
        requires { (at ≤ limit * limit) × (length s.old ≡ 2 * (at + self.now.n)) }
        ensures { ((q : ℕ) → q < self.now.n - 1 → entry s.new q
            ≡ new_entry (entry s.old (at + old_row self.now.k q)) (entry s.old (at + self.now.k))
            (entry self.now.row.now (old_row self.now.k q)) (entry self.now.row.now self.now.k))
            × ((q : ℕ) → self.now.n - 1 ≤ q → entry s.new q ≡ entry s.old q) }
    {
        self.left_columns(at, s);
        self.reduce_columns(1, self.k, self.n - 1, at, near(at + 1), s);
    }

    // Row i of the n, reduced by row k, becomes row p of the n - 1. The part handed on is from where the new row begins to where the old
    // one ends.
    fn put_row(&self, i: usize, p: usize, y: &mut [f64])
        requires { (i < self.now.n) × (p ≤ i) × (2 * (self.now.n * self.now.n) ≤ length y.old) }
        ensures { ((q : ℕ) → q < self.now.n - 1 → entry_at (self.now.n - 1) y.new p q
            ≡ new_entry (entry_at self.now.n y.old i (old_row self.now.k q)) (entry_at self.now.n y.old i self.now.k)
            (entry self.now.row.now (old_row self.now.k q)) (entry self.now.row.now self.now.k))
            × ((r q : ℕ) → r < p → q < self.now.n - 1 → entry_at (self.now.n - 1) y.new r q ≡ entry_at (self.now.n - 1) y.old r q)
            × ((r q : ℕ) → i < r → entry_at self.now.n y.new r q ≡ entry_at self.now.n y.old r q)
            × ((t : ℕ) → p * (self.now.n - 1) + (self.now.n - 1) ≤ t → entry y.new t ≡ entry y.old t) }
    {
        let b = p * (self.n - 1);
        let at = i * self.n - b;
        let f = 2 * b;
        let e = f + 2 * (at + self.n);
        self.reduce_row(at, &mut y[f..e]);
    }

    // The rows first .. end of the n - 1, of the old rows d further down.
    fn put_rows(&self, d: usize, first: usize, end: usize, y: &mut [f64])
        requires { (first ≤ end)
            × (end + d ≤ self.now.n)
            × ((p : ℕ) → first ≤ p → p < end → old_row self.now.k p ≡ p + d)
            × (2 * (self.now.n * self.now.n) ≤ length y.old) }
        ensures { ((r q : ℕ) → first ≤ r → r < end → q < self.now.n - 1 → entry_at (self.now.n - 1) y.new r q
            ≡ new_entry (entry_at self.now.n y.old (old_row self.now.k r) (old_row self.now.k q))
            (entry_at self.now.n y.old (old_row self.now.k r) self.now.k)
            (entry self.now.row.now (old_row self.now.k q)) (entry self.now.row.now self.now.k))
            × ((r q : ℕ) → r < first → q < self.now.n - 1 → entry_at (self.now.n - 1) y.new r q ≡ entry_at (self.now.n - 1) y.old r q)
            × ((r q : ℕ) → end + d ≤ r → entry_at self.now.n y.new r q ≡ entry_at self.now.n y.old r q)
            × ((t : ℕ) → end * (self.now.n - 1) ≤ t → entry y.new t ≡ entry y.old t) }
    {
        for p in first..end {
            self.put_row(p + d, p, y);
        }
    }

    // Every row but k, reduced by row k.
    fn other_rows(&self, y: &mut [f64])
        requires { 2 * (self.now.n * self.now.n) ≤ length y.old }
        ensures { ((p q : ℕ) → p < self.now.n - 1 → q < self.now.n - 1 → entry_at (self.now.n - 1) y.new p q
            ≡ new_entry (entry_at self.now.n y.old (old_row self.now.k p) (old_row self.now.k q))
            (entry_at self.now.n y.old (old_row self.now.k p) self.now.k)
            (entry self.now.row.now (old_row self.now.k q)) (entry self.now.row.now self.now.k))
            × ((t : ℕ) → (self.now.n - 1) * (self.now.n - 1) ≤ t → entry y.new t ≡ entry y.old t) }
    {
        self.put_rows(0, 0, self.k, y);
        self.put_rows(1, self.k, self.n - 1, y);
    }
}

// Row and column k drop out of the n rows at the slice's front; what stands behind the rows left stays. `row` is room for a row.
fn remove_row(n: usize, k: usize, y: &mut [f64], row: &mut [f64])
    requires { (n ≤ limit) × (k < n) × (2 * (n * n) ≤ length y.old) × (length row.old ≡ 2 * limit) }
    ensures { ((p q : ℕ) → p < n - 1 → q < n - 1 → entry_at (n - 1) y.new p q
        ≡ kron k (entry_at n y.old) (old_row k p) (old_row k q))
        × ((t : ℕ) → (n - 1) * (n - 1) ≤ t → entry y.new t ≡ entry y.old t) }
{
    let w = 2 * n;
    let a = 2 * (k * n);
    let e = a + w;
    row[0..w].copy_from_slice(&y[a..e]);
    let pivot = Pivot {
        n,
        k,
        row: &row[0..w],
    };
    pivot.other_rows(y);
}

// Whether the m rows after `done` removals are of ordinary size: the caller has told it of the first ones.
fn still_ordinary(done: usize, m: usize, y: &[f64], ordinary: bool) -> bool
    requires { (m ≤ limit) × (2 * (m * m) ≤ length y.now)
        × (done ≡ 0 → T ordinary → T (all_ordinary (take (2 * (m * m)) y.now))) }
    ensures { T result → T (all_ordinary (take (2 * (m * m)) y.now)) }
{
    if done == 0 {
        ordinary
    } else {
        Front { n: m, y }.is_ordinary()
    }
}

impl KronReducer {
    // One bus, told by its row, is removed from the record and from the rows at the slice's front, or refused with 11, 12 or 20 and both as
    // they were. `ordinary` says that the front is of ordinary size.
    fn remove_one(
        &mut self,
        y: &mut [f64],
        row: &mut [f64],
        bus: usize,
        ordinary: bool,
    ) -> Result<(), Refusal>
        requires { Holds self.old y.old × (length row.old ≡ 2 * limit)
            × (T ordinary → T (all_ordinary (present self.old y.old))) }
        ensures { RemovedOne self.old y.old bus result self.new y.new }
    {
        let n = self.n_buses;
        let Some(k) = find_bus(&self.active_buses[0..n], bus) else {
            return Err(Refusal::NotActive);
        };
        Front { n, y }.row_refusal(k, ordinary)?;
        remove_row(n, k, y, row);
        close_places(&mut self.active_buses, n, k);
        self.n_buses = n - 1;
        Ok(())
    }

    // The buses of a list, told by their rows, are removed in order, up to the first that is refused. `ordinary` says that the front is of
    // ordinary size.
    pub fn remove_list(
        &mut self,
        y: &mut [f64],
        row: &mut [f64],
        buses: &[usize],
        ordinary: bool,
    ) -> Removals
        requires { Holds self.old y.old × (length row.old ≡ 2 * limit)
            × (T ordinary → T (all_ordinary (present self.old y.old))) }
        ensures { RemovedAll self.old y.old buses.now result self.new y.new }
    {
        for (removed, bus) in buses.iter().enumerate() {
            let still = still_ordinary(removed, self.n_buses, y, ordinary);
            if let Err(refusal) = self.remove_one(y, row, *bus, still) {
                return Removals {
                    answer: Err(refusal),
                    removed,
                };
            }
        }
        Removals {
            answer: Ok(()),
            removed: buses.len(),
        }
    }
}
