// The rows of a Ward study: gathered from the given matrix, and multiplied with what the elimination left in the work slice.
// The functions here have a `requires`, which their callers prove. n: buses; w: entries of a row of the work slice.
ghost use Rattle.std.specs.Prelude.{◌≡◌, map, ℕ, ◌+◌, ◌*◌, ◌<◌, ◌≤◌, length, get_or};
ghost use Rattle.std.specs.Float.{nan};
ghost use Rattle.complex.specs.Arithmetic as arithmetic;
ghost use Rattle.complex.specs.Entries.{entry};
ghost use Rattle.complex.specs.Matrices as matrices;
ghost use Rattle.solver.specs.Inner.Work.{with_row};
ghost use Rattle.ward_equivalent.specs.Arithmetic as ward;
ghost use Rattle.ward_equivalent.specs.Inner.Views as view;

use complex::Complex;
use complex::entry::{get, put};
use complex::slices::clear;
use solver::blocks::{Columns, row_of};

// A matrix of n buses: its entries row by row, two numbers each.
#[derive(Clone, Copy)]
pub struct BusMatrix<'a> {
    pub n: usize,
    pub y: &'a [f64],
}

impl BusMatrix<'_> {
    // The entry between two buses.
    #[tactic(auto, unfolding(complex::specs::Matrices::entry_at))]
    pub fn at(self, i: usize, j: usize) -> Complex
        requires { 2 * (i * self.n + j) + 1 < length self.y.now }
        ensures { result ≡ matrices.entry_at self.entry.n self.entry.y.now i j }
    {
        get(self.y, i * self.n + j)
    }
}

// What is fed in at the external buses: p in MW and q in MVAr, base in MVA.
#[derive(Clone, Copy)]
pub struct ExternalInjections<'a> {
    pub base: f64,
    pub p: &'a [f64],
    pub q: &'a [f64],
}

impl ExternalInjections<'_> {
    // The current of external bus k, per unit, at unit voltage.
    #[tactic(auto, unfolding(crate::specs::Arithmetic::current))]
    fn current(self, k: usize) -> Complex
        requires { (k < length self.p.now) × (k < length self.q.now) }
        ensures { result ≡ ward.current self.entry.base (get_or self.entry.p.now k nan) (get_or self.entry.q.now k nan) }
    {
        Complex {
            re: self.p[k] / self.base,
            im: -self.q[k] / self.base,
        }
    }
}

// Where solutions stand: in rows of w entries, one a row for each external bus, from `column` on.
#[derive(Clone, Copy)]
pub struct Solved<'a> {
    pub work: &'a [f64],
    pub w: usize,
    pub column: usize,
}

impl Solved<'_> {
    // The first column's entry for external bus k.
    #[tactic(auto, unfolding(complex::specs::Matrices::entry_at))]
    fn at(self, k: usize) -> Complex
        requires { 2 * (k * self.w + self.column) + 1 < length self.work.now }
        ensures { result ≡ matrices.entry_at self.entry.w self.entry.work.now k self.entry.column }
    {
        get(self.work, k * self.w + self.column)
    }
}

// The row of a bus, in the columns of the listed buses.
pub fn pick(matrix: BusMatrix, bus: usize, columns: &[usize], to: &mut [f64])
    requires { (view.Lists matrix columns.now) × (bus < matrix.n) × (length to.old ≡ 2 * length columns.now) }
    ensures { to.new ≡ matrices.row (view.entries matrix.entry) bus columns.now }
{
    for (j, column) in columns.iter().enumerate() {
        put(to, j, matrix.at(bus, *column));
    }
}

// A row of an external bus in the columns of all listed buses, and its current behind them.
fn fill_row(matrix: BusMatrix, bus: usize, buses: &[usize], c: Complex, to: &mut [f64])
    requires { (view.Lists matrix buses.now) × (bus < matrix.n) × (length to.old ≡ 2 * (length buses.now + 1)) }
    ensures { ((j : ℕ) → j < length buses.now → entry to.new j
        ≡ view.entries matrix.entry bus (get_or buses.now j 0))
        × (entry to.new (length buses.now) ≡ c) }
{
    let k = buses.len();
    let a = 2 * k;
    pick(matrix, bus, buses, &mut to[0..a]);
    put(to, k, c);
}

// Row k of the work slice.
fn fill_at(matrix: BusMatrix, buses: &[usize], e: usize, k: usize, c: Complex, work: &mut [f64])
    requires { (view.Lists matrix buses.now)
        × (e ≤ length buses.now)
        × (k < e)
        × (length work.old ≡ 2 * (e * (length buses.now + 1))) }
    ensures { (r j : ℕ) → j < length buses.now + 1 → matrices.entry_at (length buses.now + 1) work.new r j
        ≡ with_row k (view.work_row matrix.entry buses.now k c)
        (matrices.entry_at (length buses.now + 1) work.old) r j }
{
    let w = buses.len() + 1;
    fill_row(matrix, buses[k], buses, c, &mut work[row_of(e, w, k)]);
}

// The work slice before the elimination. The external buses are the first e of the list; p and q are in MW and MVAr, base in MVA.
pub fn fill(
    matrix: BusMatrix,
    buses: &[usize],
    e: usize,
    injections: ExternalInjections,
    work: &mut [f64],
)
    requires { (view.Lists matrix buses.now)
        × (e ≤ length buses.now)
        × (length injections.p.now ≡ e)
        × (length injections.q.now ≡ e)
        × (length work.old ≡ 2 * (e * (length buses.now + 1))) }
    ensures { (k j : ℕ) → k < e → j < length buses.now + 1 → matrices.entry_at (length buses.now + 1) work.new k j
        ≡ view.work_matrix matrix.entry buses.now injections.entry k j }
{
    for k in 0..e {
        fill_at(matrix, buses, e, k, injections.current(k), work);
    }
}

// The front of the work slice before the solve for the column of a bus: the external part, and the column beside it.
pub fn fill_column(matrix: BusMatrix, outer: &[usize], bus: usize, front: &mut [f64])
    requires { (view.Lists matrix outer.now) × (bus < matrix.n) × (length front.old ≡ 2 * (length outer.now * (length outer.now + 1))) }
    ensures { (k j : ℕ) → k < length outer.now → j < length outer.now + 1
        → matrices.entry_at (length outer.now + 1) front.new k j
        ≡ view.work_row matrix.entry outer.now k
        (view.entries matrix.entry (get_or outer.now k 0) bus) j }
{
    let e = outer.len();
    for (k, external) in outer.iter().enumerate() {
        let c = matrix.at(*external, bus);
        fill_at(matrix, outer, e, k, c, front);
    }
}

// The row gains a factor times another.
fn add_scaled(row: &mut [f64], w: usize, factor: Complex, other: &[f64])
    requires { (length row.old ≡ 2 * w) × (length other.now ≡ 2 * w) }
    ensures { (q : ℕ) → q < w → entry row.new q
        ≡ arithmetic.cadd (entry row.old q) (arithmetic.cmul factor (entry other.now q)) }
{
    for j in 0..w {
        let x = get(row, j);
        let o = get(other, j);
        put(row, j, complex::raw::cadd(x, complex::raw::cmul(factor, o)));
    }
}

// One term: the entry between a bus and the external bus k, times the r solved entries of row k.
fn add_term(
    matrix: BusMatrix,
    bus: usize,
    outer: &[usize],
    k: usize,
    solved: Solved,
    r: usize,
    to: &mut [f64],
)
    requires { (view.Lists matrix outer.now)
        × (bus < matrix.n)
        × (k < length outer.now)
        × (view.RowsFor outer.now solved)
        × (solved.column + r ≤ solved.w)
        × (length to.old ≡ 2 * r) }
    ensures { (q : ℕ) → q < r → entry to.new q
        ≡ arithmetic.cadd (entry to.old q)
        (arithmetic.cmul (view.entries matrix.entry bus (get_or outer.now k 0))
        (matrices.entry_at solved.entry.w solved.entry.work.now k (solved.entry.column + q))) }
{
    let e = outer.len();
    let columns = Columns {
        n: e,
        w: solved.w,
        at: solved.column,
        m: r,
    };
    add_scaled(
        to,
        r,
        matrix.at(bus, outer[k]),
        &solved.work[columns.row(k)],
    );
}

// The row of a bus in Y_re times the r solved columns, added to what the row holds.
fn add_products(
    matrix: BusMatrix,
    bus: usize,
    outer: &[usize],
    solved: Solved,
    r: usize,
    to: &mut [f64],
)
    requires { (view.Lists matrix outer.now)
        × (bus < matrix.n)
        × (view.RowsFor outer.now solved)
        × (solved.column + r ≤ solved.w)
        × (length to.old ≡ 2 * r)
        × ((q : ℕ) → q < r → entry to.old q ≡ view.times_to matrix outer.now solved bus q 0) }
    ensures { (q : ℕ) → q < r → entry to.new q
        ≡ view.times matrix.entry outer.now solved.entry bus q }
{
    for k in 0..outer.len() {
        add_term(matrix, bus, outer, k, solved, r, to);
    }
}

// The row is taken from the bus's own in the listed columns.
fn take_from(matrix: BusMatrix, bus: usize, kept: &[usize], row: &mut [f64])
    requires { (view.Lists matrix kept.now) × (bus < matrix.n) × (length row.old ≡ 2 * length kept.now) }
    ensures { (q : ℕ) → q < length kept.now → entry row.new q
        ≡ arithmetic.csub (view.entries matrix.entry bus (get_or kept.now q 0)) (entry row.old q) }
{
    for (j, column) in kept.iter().enumerate() {
        let x = get(row, j);
        let g = matrix.at(bus, *column);
        put(row, j, complex::raw::csub(g, x));
    }
}

// One row of the equivalent.
fn reduce_row(
    matrix: BusMatrix,
    bus: usize,
    outer: &[usize],
    kept: &[usize],
    solved: Solved,
    to: &mut [f64],
)
    requires { (view.Lists matrix outer.now)
        × (view.Lists matrix kept.now)
        × (bus < matrix.n)
        × (view.RowsFor outer.now solved)
        × (solved.column + length kept.now ≤ solved.w)
        × (length to.old ≡ 2 * length kept.now) }
    ensures { (q : ℕ) → q < length kept.now → entry to.new q
        ≡ view.reduced_row matrix.entry outer.now kept.now solved.entry bus q }
{
    clear(to);
    add_products(matrix, bus, outer, solved, kept.len(), to);
    take_from(matrix, bus, kept, to);
}

// Row p of the equivalent.
fn reduce_at(
    matrix: BusMatrix,
    outer: &[usize],
    kept: &[usize],
    solved: Solved,
    p: usize,
    to: &mut [f64],
)
    requires { (view.Lists matrix outer.now)
        × (view.Lists matrix kept.now)
        × (view.RowsFor outer.now solved)
        × (solved.column + length kept.now ≤ solved.w)
        × (p < length kept.now)
        × (length to.old ≡ 2 * (length kept.now * length kept.now)) }
    ensures { (r q : ℕ) → q < length kept.now → matrices.entry_at (length kept.now) to.new r q
        ≡ with_row p (view.reduced_row matrix.entry outer.now kept.now solved.entry
        (get_or kept.now p 0)) (matrices.entry_at (length kept.now) to.old) r q }
{
    let r = kept.len();
    reduce_row(
        matrix,
        kept[p],
        outer,
        kept,
        solved,
        &mut to[row_of(r, r, p)],
    );
}

// The reduced matrix: Y_rr - Y_re X, where X is solved.
pub fn reduced(matrix: BusMatrix, outer: &[usize], kept: &[usize], solved: Solved, to: &mut [f64])
    requires { (view.Lists matrix outer.now)
        × (view.Lists matrix kept.now)
        × (view.RowsFor outer.now solved)
        × (solved.column + length kept.now ≤ solved.w)
        × (length to.old ≡ 2 * (length kept.now * length kept.now)) }
    ensures { (p q : ℕ) → p < length kept.now → q < length kept.now → matrices.entry_at (length kept.now)
        to.new p q
        ≡ view.reduced_row matrix.entry outer.now kept.now solved.entry
        (get_or kept.now p 0) q }
{
    for p in 0..kept.len() {
        reduce_at(matrix, outer, kept, solved, p, to);
    }
}

fn pick_at(matrix: BusMatrix, kept: &[usize], p: usize, to: &mut [f64])
    requires { (view.Lists matrix kept.now)
        × (p < length kept.now)
        × (length to.old ≡ 2 * (length kept.now * length kept.now)) }
    ensures { (r q : ℕ) → q < length kept.now → matrices.entry_at (length kept.now) to.new r q
        ≡ with_row p (view.picked_row matrix.entry kept.now p)
        (matrices.entry_at (length kept.now) to.old) r q }
{
    let r = kept.len();
    pick(matrix, kept[p], kept, &mut to[row_of(r, r, p)]);
}

// The given matrix in the rows and columns of the listed buses.
pub fn submatrix(matrix: BusMatrix, kept: &[usize], to: &mut [f64])
    requires { (view.Lists matrix kept.now) × (length to.old ≡ 2 * (length kept.now * length kept.now)) }
    ensures { to.new ≡ matrices.rows (view.entries matrix.entry) kept.now kept.now }
{
    for p in 0..kept.len() {
        pick_at(matrix, kept, p, to);
    }
}

// The row of a bus in Y_be times the solved column.
pub fn row_times(matrix: BusMatrix, bus: usize, outer: &[usize], solved: Solved) -> Complex
    requires { (view.Lists matrix outer.now) × (bus < matrix.n) × (view.RowsFor outer.now solved) × (solved.column < solved.w) }
    ensures { result ≡ view.times_first matrix.entry outer.now solved.entry bus }
{
    let mut sum = Complex { re: 0.0, im: 0.0 };
    for (k, external) in outer.iter().enumerate() {
        let g = matrix.at(bus, *external);
        let x = solved.at(k);
        sum = complex::raw::cadd(sum, complex::raw::cmul(g, x));
    }
    sum
}

// What the boundary buses get, in MW and MVAr, where the currents' column is solved.
pub fn injections(
    matrix: BusMatrix,
    outer: &[usize],
    boundary: &[usize],
    base: f64,
    solved: Solved,
    active: &mut [f64],
    reactive: &mut [f64],
)
    requires { (view.Lists matrix outer.now)
        × (view.Lists matrix boundary.now)
        × (view.RowsFor outer.now solved)
        × (solved.column < solved.w)
        × (length active.old ≡ length boundary.now)
        × (length reactive.old ≡ length boundary.now) }
    ensures { (active.new ≡ map
        (λ (i : ℕ). ward.injected_p base (view.times_first matrix.entry outer.now solved.entry i))
        boundary.now)
        × (reactive.new
        ≡ map (λ (i : ℕ). ward.injected_q base (view.times_first matrix.entry outer.now solved.entry i))
        boundary.now) }
{
    for (t, bus) in boundary.iter().enumerate() {
        let i = row_times(matrix, *bus, outer, solved);
        active[t] = -i.re * base;
        reactive[t] = i.im * base;
    }
}
