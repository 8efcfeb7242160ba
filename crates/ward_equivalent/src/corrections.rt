// What the voltages at the external buses add to a Ward study: for each boundary bus a voltage correction and a reactive compensation.
// The functions here have a `requires`, which their callers prove. n: buses; voltages per unit, base in MVA.
ghost use Rattle.std.specs.Prelude.{◌≡◌, map, ◌&&◌, ℕ, ◌-◌, ◌<◌, T, length, get_or};
ghost use Rattle.std.specs.Float.Ieee.Scale as scale;
ghost use Rattle.ward_equivalent.specs.Calls as spec;
ghost use Rattle.ward_equivalent.specs.Inner.Listed as listed;
ghost use Rattle.ward_equivalent.specs.Extended as ward;
ghost use Rattle.refusals.specs.declared.Allowance.TheVariants.{Rows};
ghost use Rattle.ward_equivalent.specs.Studied as studied;
ghost use Rattle.ward_equivalent.specs.Inner.Views as view;
ghost use Rattle.ward_equivalent.specs.Inner.Sequence as sequence;

use crate::answers::WardSummary;
use crate::listing::{ListedStudy, Ties};
use crate::study;
use binary64::finite::finite;
use complex::constants::SMALL_MAGNITUDE;
use complex::raw::magnitude;
use refusals::{LIMIT, Refusal};

// Over the ties of one boundary bus: the magnitudes, the deviations weighted with them, and the reactive power in MVAr.
#[derive(Clone, Copy)]
pub struct TieSums {
    pub weights: f64,
    pub weighted: f64,
    pub reactive: f64,
}

fn over_ties(ties: Ties, bus: usize) -> TieSums
    requires { bus < ties.matrix.n }
    ensures { (result.weights ≡ ward.weight_sum (view.correction_input ties.entry) bus)
        × (result.weighted ≡ ward.weighted_sum (view.correction_input ties.entry) bus)
        × (result.reactive ≡ ward.q_compensation (view.correction_input ties.entry)
        bus) }
{
    let mut weights = 0.0;
    let mut weighted = 0.0;
    let mut reactive = 0.0;
    for (k, external) in ties.outer.iter().enumerate() {
        let g = ties.matrix.at(bus, *external);
        let w = magnitude(g);
        let d = ties.voltages[k] - 1.0;
        weights += w;
        weighted += w * d;
        reactive += -g.im * d * ties.base;
    }
    TieSums {
        weights,
        weighted,
        reactive,
    }
}

// Whether the sums and their mean are finite.
fn finite_tie(s: TieSums, mean: f64) -> bool
    ensures { result ≡ (scale.finite s.weights && (scale.finite s.weighted && (scale.finite s.reactive && scale.finite mean))) }
{
    finite(s.weights) && finite(s.weighted) && finite(s.reactive) && finite(mean)
}

// The mean of the deviations. A weight sum not above 1e-12 leaves 0.
#[tactic(auto, unfolding(crate::specs::Extended::mean_of, complex::specs::Constants::small_magnitude, complex::specs::Constants::plus0))]
fn mean(weights: f64, weighted: f64) -> f64
    ensures { result ≡ ward.mean_of weights weighted }
{
    if weights > SMALL_MAGNITUDE {
        weighted / weights
    } else {
        0.0
    }
}

// The corrections and compensations of the boundary buses, in their order, as long as all are finite. The sums tell of the numbers in them.
fn corrections(
    ties: Ties,
    boundary: &[usize],
    correction: &mut [f64],
    compensation: &mut [f64],
) -> bool
    requires { (view.Lists ties.matrix boundary.now)
        × (length correction.old ≡ length boundary.now)
        × (length compensation.old ≡ length boundary.now) }
    ensures { (sequence.Tells result ((t : ℕ) → t < length boundary.now → listed.CorrectionFinite
        (view.correction_input ties.entry) (get_or boundary.now t 0)))
        × (T result → correction.new
        ≡ map (ward.voltage_correction (view.correction_input ties.entry))
        boundary.now)
        × (T result → compensation.new
        ≡ map (ward.q_compensation (view.correction_input ties.entry))
        boundary.now) }
{
    for (t, bus) in boundary.iter().enumerate() {
        let s = over_ties(ties, *bus);
        let m = mean(s.weights, s.weighted);
        if !finite_tie(s, m) {
            return false;
        }
        correction[t] = m;
        compensation[t] = s.reactive;
    }
    true
}

// The study on one list of rows, as `study::study`; where it is accepted, the corrections and compensations too. They are computed into cs
// and ks before an output is written, and where they are not finite the study's own refusal comes first.
fn corrected_in(
    study: ListedStudy,
    voltages: &[f64],
    allowed: usize,
    to: &mut [f64],
    active: &mut [f64],
    reactive: &mut [f64],
    correction: &mut [f64],
    compensation: &mut [f64],
    work: &mut [f64],
    cs: &mut [f64],
    ks: &mut [f64],
) -> Result<WardSummary, Refusal>
    requires { (listed.StudySlices (length study.buses.now) study.e study.f (spec.outputs_of to.old active.old reactive.old work.old))
        × (length voltages.now ≡ study.e)
        × (length correction.old ≡ length study.buses.now - study.f)
        × (length compensation.old ≡ length study.buses.now - study.f)
        × (length cs.old ≡ length study.buses.now - study.f)
        × (length ks.old ≡ length study.buses.now - study.f) }
    ensures { spec.after_extended result (spec.outputs_of to.new active.new reactive.new work.new)
        correction.new compensation.new
        ≡ studied.studied_extended
        (listed.extended_of (view.cut study.entry)
        voltages.now) (Rows allowed)
        (spec.extended_outputs_of (spec.outputs_of to.old active.old reactive.old work.old)
        correction.old compensation.old) 0 }
{
    let k = study.buses.len();
    let ties = Ties {
        matrix: study.matrix,
        outer: &study.buses[0..study.e],
        voltages,
        base: study.injections.base,
    };
    let fine = corrections(ties, &study.buses[study.f..k], cs, ks);
    if !fine {
        return Err(study::uncorrected(study, allowed, work));
    }
    let summary = study::study(study, allowed, to, active, reactive, work)?;
    correction.copy_from_slice(cs);
    compensation.copy_from_slice(ks);
    Ok(summary)
}

// The same, with room for the corrections.
pub fn corrected(
    study: ListedStudy,
    voltages: &[f64],
    allowed: usize,
    to: &mut [f64],
    active: &mut [f64],
    reactive: &mut [f64],
    correction: &mut [f64],
    compensation: &mut [f64],
    work: &mut [f64],
) -> Result<WardSummary, Refusal>
    requires { (listed.StudySlices (length study.buses.now) study.e study.f (spec.outputs_of to.old active.old reactive.old work.old))
        × (length voltages.now ≡ study.e)
        × (length correction.old ≡ length study.buses.now - study.f)
        × (length compensation.old ≡ length study.buses.now - study.f) }
    ensures { spec.after_extended result (spec.outputs_of to.new active.new reactive.new work.new)
        correction.new compensation.new
        ≡ studied.studied_extended
        (listed.extended_of (view.cut study.entry)
        voltages.now) (Rows allowed)
        (spec.extended_outputs_of (spec.outputs_of to.old active.old reactive.old work.old)
        correction.old compensation.old) 0 }
{
    let b = study.buses.len() - study.f;
    // fixed memory, as no library crate takes any from the heap
    let mut cs = [0.0; LIMIT];
    let mut ks = [0.0; LIMIT];
    corrected_in(
        study,
        voltages,
        allowed,
        to,
        active,
        reactive,
        correction,
        compensation,
        work,
        &mut cs[0..b],
        &mut ks[0..b],
    )
}
