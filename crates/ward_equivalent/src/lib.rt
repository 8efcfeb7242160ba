// Ward and extended Ward equivalents of a bus matrix that stands in a lent slice. Buses are named by number.
#![tactic(auto)]

ghost use Rattle.std.specs.Prelude.{◌≡◌};
ghost use Rattle.binary64.specs.Values.{F64s};
ghost use Rattle.ward_equivalent.specs.Calls as spec;
ghost use Rattle.ward_equivalent.specs.Numbers as ward;

use crate::answers::WardSummary;
use crate::lengths::{Lengths, length_refusal};
use crate::listing::ListedStudy;
use crate::rows::{BusMatrix, ExternalInjections};
use refusals::{Allowance, LIMIT, Refusal, allowed_rows};

pub mod answers;
mod corrections;
mod given;
mod lengths;
mod listing;
mod numbers;
mod rows;
mod sequence;
mod study;

// Ward's equivalent of the n buses of y for the internal and boundary buses, in this order: its matrix in y_ward, and what each boundary
// bus gets, in MW and MVAr, in p_ward and q_ward. p_ext and q_ext are the injections at the external buses, in MW and MVAr, base_mva in
// MVA; at unit voltage the current of P + jQ is P - jQ. numbers[i] is the number of the bus of row i; the three lists hold numbers.
// Answers how many rows its r + 1 solves reduced, one for each of r retained buses and one for the currents: at most (r + 1) e (e - 1)
// for e external buses. Refused: 1, 2, 3, 7, 8, 19 from the input; 13 where a pivot is below 1e-150 in size, 18 before the row reduction
// that would exceed the allowance over the whole study, 20 where a number computed is not finite, whichever the work meets first; then no
// output is written. The work slice has 2 e (e + r + 1) numbers, all +0 unless the input was refused. External buses without
// a tie to a retained bus are mostly not refused, and what is fed in there is lost.
// The parameters, here and below, stay as the C interface has them, one for each list and slice.
pub fn compute(
    n: usize,
    y: &[f64],
    numbers: &[u32],
    internal: &[u32],
    external: &[u32],
    boundary: &[u32],
    base_mva: f64,
    p_ext: &[f64],
    q_ext: &[f64],
    allowance: Allowance,
    y_ward: &mut [f64],
    p_ward: &mut [f64],
    q_ward: &mut [f64],
    work: &mut [f64],
) -> Result<WardSummary, Refusal>
    ensures { (spec.after_ward result y_ward.new p_ward.new q_ward.new work.new
        ≡ ward.after_compute (ward.numbered_of numbers.now
        (spec.study_of n y.now internal.now external.now boundary.now base_mva
        p_ext.now q_ext.now)) allowance
        (spec.outputs_of y_ward.old p_ward.old q_ward.old work.old))
        × F64s y.now }
{
    length_refusal(Lengths {
        size: n,
        given: y.len(),
        numbers: numbers.len(),
        internal: internal.len(),
        external: external.len(),
        boundary: boundary.len(),
        p_ext: p_ext.len(),
        q_ext: q_ext.len(),
        v_ext: external.len(),
        y_ward: y_ward.len(),
        p_ward: p_ward.len(),
        q_ward: q_ward.len(),
        correction: boundary.len(),
        compensation: boundary.len(),
        work: work.len(),
    })?;
    // fixed memory, as no library crate takes any from the heap
    let mut rows = [0; 3 * LIMIT];
    numbers::placed(numbers, internal, external, boundary, &mut rows)?;
    if !given::given_finite(y, base_mva, p_ext, q_ext) {
        return Err(Refusal::GivenNotFinite);
    }
    let e = external.len();
    let f = e + internal.len();
    let k = f + boundary.len();
    let study = ListedStudy {
        matrix: BusMatrix { n, y },
        buses: &rows[0..k],
        e,
        f,
        injections: ExternalInjections {
            base: base_mva,
            p: p_ext,
            q: q_ext,
        },
    };
    study::study(study, allowed_rows(allowance), y_ward, p_ward, q_ward, work)
}

// The study with the voltages at the external buses, per unit: beside Ward's equivalent, each boundary bus's voltage correction, per unit,
// and its reactive compensation, in MVAr. Refusals are those of `compute`; voltages that don't match the external list are 3, one that is
// not finite is 19, and a correction with a number that is not finite is 20, met behind the study's own work.
pub fn compute_extended(
    n: usize,
    y: &[f64],
    numbers: &[u32],
    internal: &[u32],
    external: &[u32],
    boundary: &[u32],
    base_mva: f64,
    p_ext: &[f64],
    q_ext: &[f64],
    v_ext: &[f64],
    allowance: Allowance,
    y_ward: &mut [f64],
    p_ward: &mut [f64],
    q_ward: &mut [f64],
    voltage_correction: &mut [f64],
    q_compensation: &mut [f64],
    work: &mut [f64],
) -> Result<WardSummary, Refusal>
    ensures { (spec.after_extended result (spec.outputs_of y_ward.new p_ward.new q_ward.new work.new)
        voltage_correction.new q_compensation.new
        ≡ ward.after_compute_extended
        (ward.numbered_extended_of
        (ward.numbered_of numbers.now
        (spec.study_of n y.now internal.now external.now boundary.now base_mva
        p_ext.now q_ext.now)) v_ext.now) allowance
        (spec.extended_outputs_of (spec.outputs_of y_ward.old p_ward.old q_ward.old work.old)
        voltage_correction.old q_compensation.old))
        × F64s y.now }
{
    length_refusal(Lengths {
        size: n,
        given: y.len(),
        numbers: numbers.len(),
        internal: internal.len(),
        external: external.len(),
        boundary: boundary.len(),
        p_ext: p_ext.len(),
        q_ext: q_ext.len(),
        v_ext: v_ext.len(),
        y_ward: y_ward.len(),
        p_ward: p_ward.len(),
        q_ward: q_ward.len(),
        correction: voltage_correction.len(),
        compensation: q_compensation.len(),
        work: work.len(),
    })?;
    // fixed memory, as no library crate takes any from the heap
    let mut rows = [0; 3 * LIMIT];
    numbers::placed(numbers, internal, external, boundary, &mut rows)?;
    if !given::extended_finite(y, base_mva, p_ext, q_ext, v_ext) {
        return Err(Refusal::GivenNotFinite);
    }
    let e = external.len();
    let f = e + internal.len();
    let k = f + boundary.len();
    let study = ListedStudy {
        matrix: BusMatrix { n, y },
        buses: &rows[0..k],
        e,
        f,
        injections: ExternalInjections {
            base: base_mva,
            p: p_ext,
            q: q_ext,
        },
    };
    corrections::corrected(
        study,
        v_ext,
        allowed_rows(allowance),
        y_ward,
        p_ward,
        q_ward,
        voltage_correction,
        q_compensation,
        work,
    )
}
