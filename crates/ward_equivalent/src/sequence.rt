// The work of a study in the order of its steps: a solve for the column of each retained bus, the equivalent's entries, the currents and
// their solve, the injections. It decides what is met first, and writes no output. The functions here have a `requires`, which their
// callers prove. n: buses; outer, the external ones; e of them. The front of the work slice is e rows of e + 1 entries, one system with its
// right side; behind it the solved columns are kept, e rows of one entry a retained bus.
ghost use Rattle.std.specs.Prelude.{◌≡◌, cond, ◌++◌, ℕ, ◌+◌, ◌*◌, ◌<◌, ◌≤◌, T, eqb, length, get_or, drop};
ghost use Rattle.std.specs.Float.Ieee.Scale as scale;
ghost use Rattle.complex.specs.Entries.{entry};
ghost use Rattle.complex.specs.Matrices.{entry_at, zeros};
ghost use Rattle.refusals.specs.Work.{computing};
ghost use Rattle.solver.specs.Inner.Work.{Ended};
ghost use Rattle.ward_equivalent.specs.Arithmetic as ward;
ghost use Rattle.ward_equivalent.specs.Steps as steps;
ghost use Rattle.ward_equivalent.specs.Inner.Views as view;
ghost use Rattle.ward_equivalent.specs.Inner.Sequence as sequence;

use crate::listing::{ListedStudy, Parts};
use crate::rows;
use crate::rows::{Solved, row_times};
use binary64::finite::all_finite;
use complex::ordinary::{all_ordinary, ordinary};
use complex::slices::clear;
use complex::{Complex, both_finite};
use refusals::{LIMIT, Refusal};
use solver::blocks::Columns;
use solver::elimination::eliminate;

// Where the solutions of a study stand, once its work is carried out, and how many rows its solves reduce: in one elimination of all right
// sides, or apart.
#[derive(Clone, Copy)]
pub enum Decided {
    Together(usize),
    Apart(usize),
}

// The solve for the column of a bus.
fn solve_column(
    parts: Parts,
    bus: usize,
    front: &mut [f64],
    left: usize,
    solution: &mut [f64],
) -> Result<usize, Refusal>
    requires { (bus < parts.matrix.n)
        × (length front.old ≡ view.front parts)
        × (length solution.old ≡ 2 * length parts.outer.now) }
    ensures { (Ended left result (view.column_steps parts.entry bus))
        × ((rest : ℕ) → result ≡ Ok rest → (k : ℕ) → k < length parts.entry.outer.now → entry solution.new k
        ≡ view.column_solution parts.entry bus k) }
{
    let e = parts.outer.len();
    let w = e + 1;
    rows::fill_column(parts.matrix, parts.outer, bus, front);
    let rest = eliminate(front, e, w, left)?;
    Columns {
        n: e,
        w,
        at: e,
        m: 1,
    }
    .take(front, solution);
    Ok(rest)
}

// The same for the q-th of the kept buses, and where it is done the column is kept. `solution` is room for one.
fn keep_column(
    parts: Parts,
    q: usize,
    work: &mut [f64],
    left: usize,
    solution: &mut [f64],
) -> Result<usize, Refusal>
    requires { (q < length parts.kept.now)
        × (length work.old ≡ view.whole parts)
        × (length solution.old ≡ 2 * length parts.outer.now) }
    ensures { (Ended left result (view.column_steps parts.entry (get_or parts.entry.kept.now q 0)))
        × ((rest : ℕ) → result ≡ Ok rest → (k c : ℕ) → k < length parts.entry.outer.now → c < length parts.entry.kept.now
        → entry_at (length parts.entry.kept.now) (drop (view.front parts.entry) work.new) k c
        ≡ cond (eqb c q)
        (view.column_solution parts.entry (get_or parts.entry.kept.now q 0) k)
        (entry_at (length parts.entry.kept.now) (drop (view.front parts.entry) work.old) k c)) }
{
    let e = parts.outer.len();
    let a = 2 * (e * (e + 1));
    let rest = solve_column(parts, parts.kept[q], &mut work[0..a], left, solution)?;
    let z = work.len();
    let columns = Columns {
        n: e,
        w: parts.kept.len(),
        at: q,
        m: 1,
    };
    columns.place(&mut work[a..z], solution);
    Ok(rest)
}

// The solves for the columns of all retained buses, in their order, with so many row reductions allowed to all of them.
fn keep_columns(
    parts: Parts,
    work: &mut [f64],
    allowed: usize,
    solution: &mut [f64],
) -> Result<usize, Refusal>
    requires { (length work.old ≡ view.whole parts)
        × (length solution.old ≡ 2 * length parts.outer.now) }
    ensures { (Ended allowed result
        (steps.of_each (view.column_steps parts.entry) parts.entry.kept.now))
        × ((rest : ℕ) → result ≡ Ok rest
        → view.ColumnsIn parts.entry work.new) }
{
    let mut left = allowed;
    for q in 0..parts.kept.len() {
        left = keep_column(parts, q, work, left, solution)?;
    }
    Ok(left)
}

// Whether the row of a bus in the equivalent is finite, X in these columns.
fn row_finite(parts: Parts, bus: usize, columns: Solved) -> bool
    requires { (bus < parts.matrix.n)
        × (view.RowsFor parts.outer.now columns)
        × (columns.column + length parts.kept.now ≤ columns.w) }
    ensures { sequence.Tells result ((q : ℕ) → q < length parts.entry.kept.now → sequence.FinitePair
        (view.reduced_row parts.entry.matrix parts.entry.outer.now parts.entry.kept.now columns.entry bus q)) }
{
    for (q, column) in parts.kept.iter().enumerate() {
        let solved = Solved {
            column: columns.column + q,
            ..columns
        };
        let x = row_times(parts.matrix, bus, parts.outer, solved);
        let d = complex::raw::csub(parts.matrix.at(bus, *column), x);
        if !both_finite(d) {
            return false;
        }
    }
    true
}

// Whether the equivalent is finite. A number that is not finite stays, so that an entry tells of all numbers on the way to it.
fn entries_finite(parts: Parts, columns: Solved) -> bool
    requires { (view.RowsFor parts.outer.now columns) × (columns.column + length parts.kept.now ≤ columns.w) }
    ensures { sequence.Tells result ((p : ℕ) → p < length parts.entry.kept.now
        → (q : ℕ) → q < length parts.entry.kept.now → sequence.FinitePair
        (view.reduced_row parts.entry.matrix parts.entry.outer.now parts.entry.kept.now columns.entry
        (get_or parts.entry.kept.now p 0) q)) }
{
    for bus in parts.kept {
        if !row_finite(parts, *bus, columns) {
            return false;
        }
    }
    true
}

// The currents and their solve.
fn solve_currents(parts: Parts, front: &mut [f64], left: usize) -> Result<usize, Refusal>
    requires { length front.old ≡ view.front parts }
    ensures { (Ended left result
        (computing (steps.of_currents (view.currents_input parts.entry)
        (length parts.entry.outer.now))
        ++ steps.steps_of_currents (view.currents_input parts.entry)))
        × ((rest : ℕ) → result ≡ Ok rest
        → view.CurrentsIn parts.entry front.new) }
{
    let e = parts.outer.len();
    rows::fill(parts.matrix, parts.outer, e, parts.injections, front);
    if !all_finite(front) {
        return Err(Refusal::ComputedNotFinite);
    }
    eliminate(front, e, e + 1, left)
}

// Whether what the boundary buses get is finite, the currents' solution in this column.
fn injections_finite(parts: Parts, boundary: &[usize], currents: Solved) -> bool
    requires { (view.Lists parts.matrix boundary.now)
        × (view.RowsFor parts.outer.now currents)
        × (currents.column < currents.w) }
    ensures { sequence.Tells result ((t : ℕ) → t < length boundary.now →
        T (scale.finite (ward.injected_p parts.entry.injections.base
        (view.times_first parts.entry.matrix parts.entry.outer.now currents.entry (get_or boundary.now t 0))))
        × T (scale.finite (ward.injected_q parts.entry.injections.base
        (view.times_first parts.entry.matrix parts.entry.outer.now currents.entry (get_or boundary.now t 0))))) }
{
    for bus in boundary {
        let i = row_times(parts.matrix, *bus, parts.outer, currents);
        let injected = Complex {
            re: -i.re * parts.injections.base,
            im: i.im * parts.injections.base,
        };
        if !both_finite(injected) {
            return false;
        }
    }
    true
}

// The currents, their solve and the injections.
fn with_injections(
    parts: Parts,
    boundary: &[usize],
    front: &mut [f64],
    left: usize,
) -> Result<usize, Refusal>
    requires { (view.Lists parts.matrix boundary.now) × (length front.old ≡ view.front parts) }
    ensures { (Ended left result
        (view.injection_steps parts.entry boundary.now))
        × ((rest : ℕ) → result ≡ Ok rest
        → view.CurrentsIn parts.entry front.new) }
{
    let e = parts.outer.len();
    let rest = solve_currents(parts, front, left)?;
    let currents = Solved {
        work: front,
        w: e + 1,
        column: e,
    };
    if !injections_finite(parts, boundary, currents) {
        return Err(Refusal::ComputedNotFinite);
    }
    Ok(rest)
}

// What comes behind the solves for the columns.
fn behind_columns(parts: Parts, work: &mut [f64], left: usize) -> Result<usize, Refusal>
    requires { (length work.old ≡ view.whole parts)
        × view.ColumnsIn parts work.old }
    ensures { (Ended left result
        (sequence.steps_behind (view.parted parts.entry)))
        × ((rest : ℕ) → result ≡ Ok rest
        → view.ColumnsIn parts.entry work.new
        × view.CurrentsIn parts.entry work.new) }
{
    let r = parts.kept.len();
    let e = parts.outer.len();
    let a = 2 * (e * (e + 1));
    let z = work.len();
    let columns = Solved {
        work: &work[a..z],
        w: r,
        column: 0,
    };
    if !entries_finite(parts, columns) {
        return Err(Refusal::ComputedNotFinite);
    }
    with_injections(parts, &parts.kept[parts.internal..r], &mut work[0..a], left)
}

// The whole work, one step after the other.
fn one_by_one(parts: Parts, work: &mut [f64], allowed: usize) -> Result<usize, Refusal>
    requires { length work.old ≡ view.whole parts }
    ensures { (Ended allowed result
        (steps.steps_of (view.parted parts.entry)))
        × ((rest : ℕ) → result ≡ Ok rest
        → view.ColumnsIn parts.entry work.new
        × view.CurrentsIn parts.entry work.new) }
{
    let b = 2 * parts.outer.len();
    // fixed memory, as no library crate takes any from the heap
    let mut solution = [0.0; 2 * LIMIT];
    let left = keep_columns(parts, work, allowed, &mut solution[0..b])?;
    behind_columns(parts, work, left)
}

// A refusal, with the work slice +0.
fn refuse(refusal: Refusal, work: &mut [f64]) -> Result<Decided, Refusal>
    ensures { (result ≡ Err refusal) × (work.new ≡ zeros (length work.old)) }
{
    clear(work);
    Err(refusal)
}

// The decision by the whole work.
fn decide_apart(study: ListedStudy, allowed: usize, work: &mut [f64]) -> Result<Decided, Refusal>
    requires { (0 < study.e) × (length work.old ≡ view.work_length study) }
    ensures { view.Decides study.entry allowed result work.new }
{
    let k = study.buses.len();
    let parts = Parts {
        matrix: study.matrix,
        outer: &study.buses[0..study.e],
        kept: &study.buses[study.e..k],
        internal: study.f - study.e,
        injections: study.injections,
    };
    match one_by_one(parts, work, allowed) {
        Ok(left) => Ok(Decided::Apart(allowed - left)),
        Err(refusal) => refuse(refusal, work),
    }
}

// One elimination for all right sides, where that decides: it is done, and no number is so large that a product or a sum could overflow.
fn together(study: ListedStudy, allowed: usize, work: &mut [f64]) -> Option<usize>
    requires { (0 < study.e) × (length work.old ≡ view.work_length study) }
    ensures { view.Tries study.entry allowed result work.old work.new }
{
    if !ordinary(study.injections.base) || !all_ordinary(study.matrix.y) {
        return None;
    }
    rows::fill(study.matrix, study.buses, study.e, study.injections, work);
    if !all_finite(work) {
        return None;
    }
    let end = eliminate(work, study.e, study.buses.len() + 1, allowed);
    if !all_ordinary(work) {
        return None;
    }
    end.ok()
}

// Whether a study is refused, the work slice then +0; else where that holds its solutions. Each of its solves reduces as many rows as the
// one elimination.
pub fn decide(study: ListedStudy, allowed: usize, work: &mut [f64]) -> Result<Decided, Refusal>
    requires { (0 < study.e) × (length work.old ≡ view.work_length study) }
    ensures { view.Decides study.entry allowed result work.new }
{
    let Some(left) = together(study, allowed, work) else {
        return decide_apart(study, allowed, work);
    };
    let reduced = (study.buses.len() + 1 - study.e) * (allowed - left);
    if reduced > allowed {
        return refuse(Refusal::BeyondAllowance, work);
    }
    Ok(Decided::Together(reduced))
}
