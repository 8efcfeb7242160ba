// A Ward study whose slices have their exact lengths and whose buses are rows. The functions here have a `requires`, which their callers
// prove.
// The slices that are written are parameters each: tried as one struct, which gets no generated proof where it is passed on to a call.
ghost use Rattle.std.specs.Prelude.{◌≡◌, ℕ, ◌<◌, ◌≤◌, length};
ghost use Rattle.complex.specs.Matrices.{zeros};
ghost use Rattle.refusals.specs.Refusals.{limit};
ghost use Rattle.refusals.specs.Work.{meets};
ghost use Rattle.refusals.specs.declared.Allowance.TheVariants.{Rows};
ghost use Rattle.ward_equivalent.specs.Ward.{ratio};
ghost use Rattle.ward_equivalent.specs.Steps.{steps_of};
ghost use Rattle.ward_equivalent.specs.Studied as ward;
ghost use Rattle.ward_equivalent.specs.Calls as spec;
ghost use Rattle.ward_equivalent.specs.Inner.Listed as listed;
ghost use Rattle.ward_equivalent.specs.Inner.Views as view;

use crate::answers::WardSummary;
use crate::listing::ListedStudy;
use crate::rows::Solved;
use crate::sequence::Decided;
use crate::{rows, sequence};
use complex::slices::clear;
use refusals::Refusal;

// No external bus: the given matrix in the rows and columns of the listed buses, no injections, ratio 0.
fn unreduced(
    study: ListedStudy,
    to: &mut [f64],
    active: &mut [f64],
    reactive: &mut [f64],
    work: &mut [f64],
) -> WardSummary
    requires { (study.e ≡ 0)
        × (listed.StudySlices (length study.buses.now) study.e study.f (spec.outputs_of to.old active.old reactive.old work.old)) }
    ensures { (allowed : ℕ) → spec.after_ward (Ok result) to.new active.new reactive.new work.new
        ≡ ward.studied (view.cut study.entry) (Rows allowed) (spec.outputs_of to.old active.old reactive.old work.old) 0 }
{
    rows::submatrix(study.matrix, study.buses, to);
    clear(active);
    clear(reactive);
    WardSummary {
        n_buses_reduced: study.matrix.n,
        n_buses_equivalent: study.buses.len(),
        reduction_ratio: 0.0,
        rows_reduced: 0,
    }
}

// The share of the buses that the equivalent leaves out.
fn ratio(r: usize, n: usize) -> f64
    requires { (r ≤ n) × (n ≤ limit) }
    ensures { result ≡ ratio r n }
{
    1.0 - (r as f64) / (n as f64)
}

// Where the work slice holds the solutions: X from number `start` on, in rows of v entries from column `first` on, and the currents' in
// column c of the rows of w entries before number `end`.
#[derive(Clone, Copy)]
pub struct Held {
    pub start: usize,
    pub v: usize,
    pub first: usize,
    pub end: usize,
    pub w: usize,
    pub c: usize,
}

// The solutions in the work slice become the equivalent, and the work slice +0.
fn filled(
    study: ListedStudy,
    reduced: usize,
    held: Held,
    to: &mut [f64],
    active: &mut [f64],
    reactive: &mut [f64],
    work: &mut [f64],
) -> WardSummary
    requires { (listed.StudySlices (length study.buses.now) study.e study.f (spec.outputs_of to.old active.old reactive.old work.old))
        × (listed.HeldIn (length study.buses.now) study.e held (length work.old)) }
    ensures { spec.after_ward (Ok result) to.new active.new reactive.new work.new
        ≡ view.outputs_from study.entry reduced held work.old }
{
    let matrix = study.matrix;
    let e = study.e;
    let k = study.buses.len();
    let z = work.len();
    let columns = Solved {
        work: &work[held.start..z],
        w: held.v,
        column: held.first,
    };
    rows::reduced(matrix, &study.buses[0..e], &study.buses[e..k], columns, to);
    let currents = Solved {
        work: &work[0..held.end],
        w: held.w,
        column: held.c,
    };
    rows::injections(
        matrix,
        &study.buses[0..e],
        &study.buses[study.f..k],
        study.injections.base,
        currents,
        active,
        reactive,
    );
    clear(work);
    let reduction_ratio = ratio(k - e, matrix.n);
    WardSummary {
        n_buses_reduced: matrix.n,
        n_buses_equivalent: k - e,
        reduction_ratio,
        rows_reduced: reduced,
    }
}

// The external buses, the first e of the list, are eliminated. Outputs are written only once the work is known to be carried out.
fn eliminated(
    study: ListedStudy,
    allowed: usize,
    to: &mut [f64],
    active: &mut [f64],
    reactive: &mut [f64],
    work: &mut [f64],
) -> Result<WardSummary, Refusal>
    requires { (0 < study.e)
        × (listed.StudySlices (length study.buses.now) study.e study.f (spec.outputs_of to.old active.old reactive.old work.old)) }
    ensures { spec.after_ward result to.new active.new reactive.new work.new
        ≡ ward.studied (view.cut study.entry) (Rows allowed)
        (spec.outputs_of to.old active.old reactive.old work.old) 0 }
{
    let e = study.e;
    let k = study.buses.len();
    let a = 2 * (e * (e + 1));
    let z = work.len();
    match sequence::decide(study, allowed, work)? {
        Decided::Together(reduced) => {
            let held = Held {
                start: 0,
                v: k + 1,
                first: e,
                end: z,
                w: k + 1,
                c: k,
            };
            Ok(filled(study, reduced, held, to, active, reactive, work))
        }
        Decided::Apart(reduced) => {
            let held = Held {
                start: a,
                v: k - e,
                first: 0,
                end: a,
                w: e + 1,
                c: e,
            };
            Ok(filled(study, reduced, held, to, active, reactive, work))
        }
    }
}

// A study whose corrections are not finite: its own refusal, else 20. No output is written.
pub fn uncorrected(study: ListedStudy, allowed: usize, work: &mut [f64]) -> Refusal
    requires { length work.old ≡ view.work_length study }
    ensures { (result ≡ listed.uncorrected_answer
        (meets allowed (steps_of (view.cut study.entry))))
        × (work.new ≡ zeros (length work.old)) }
{
    if study.e == 0 {
        clear(work);
        return Refusal::ComputedNotFinite;
    }
    let decided = sequence::decide(study, allowed, work);
    clear(work);
    decided.err().unwrap_or(Refusal::ComputedNotFinite)
}

// A study on one list of rows, none twice: the first e are external, those from f on boundary.
pub fn study(
    study: ListedStudy,
    allowed: usize,
    to: &mut [f64],
    active: &mut [f64],
    reactive: &mut [f64],
    work: &mut [f64],
) -> Result<WardSummary, Refusal>
    requires { listed.StudySlices (length study.buses.now) study.e study.f (spec.outputs_of to.old active.old reactive.old work.old) }
    ensures { spec.after_ward result to.new active.new reactive.new work.new
        ≡ ward.studied (view.cut study.entry) (Rows allowed)
        (spec.outputs_of to.old active.old reactive.old work.old) 0 }
{
    if study.e == 0 {
        return Ok(unreduced(study, to, active, reactive, work));
    }
    eliminated(study, allowed, to, active, reactive, work)
}
