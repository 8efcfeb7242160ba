// Ward and extended Ward equivalents. Buses are named by number: numbers holds those of the rows of y.
ghost use Rattle.refusals.specs.declared.Allowance.TheVariants.{Rows};
ghost use Rattle.ward_equivalent.specs.Calls as calls;
ghost use Rattle.ward_equivalent.specs.Numbers as ward;
ghost use Rattle.entries.specs.Answers as answers;
ghost use Rattle.entries.specs.Studies as spec;

use crate::answers::give_summary;
use refusals::{Allowance, number_of};

// `ward_equivalent::compute`, in the same units (per unit, MVA, MW, MVAr); the allowance is of row reductions. The study's sizes, in buses,
// its ratio, and how many rows it reduced go by pointer.
#[unsafe(no_mangle)]
pub extern "C" fn jeturipe_ward_compute(
    n: usize,
    y: &[f64],
    numbers: &[u32],
    internal: &[u32],
    external: &[u32],
    boundary: &[u32],
    base_mva: f64,
    p_ext: &[f64],
    q_ext: &[f64],
    allowance: usize,
    y_ward: &mut [f64],
    p_ward: &mut [f64],
    q_ward: &mut [f64],
    work: &mut [f64],
    n_buses_reduced: &mut usize,
    n_buses_equivalent: &mut usize,
    reduction_ratio: &mut f64,
    rows_reduced: &mut usize,
) -> u32
    ensures { spec.WardAnswered
        (ward.after_compute (ward.numbered_of numbers.now (calls.study_of n y.now
        internal.now external.now boundary.now base_mva p_ext.now q_ext.now))
        (Rows allowance)
        (calls.outputs_of y_ward.old p_ward.old q_ward.old work.old))
        result
        (calls.outputs_of y_ward.new p_ward.new q_ward.new work.new)
        (answers.summary_of n_buses_reduced.old n_buses_equivalent.old reduction_ratio.old
        rows_reduced.old)
        (answers.summary_of n_buses_reduced.new n_buses_equivalent.new reduction_ratio.new
        rows_reduced.new) }
{
    let answer = equivalents::ward::compute(
        n,
        y,
        numbers,
        internal,
        external,
        boundary,
        base_mva,
        p_ext,
        q_ext,
        Allowance::Rows(allowance),
        y_ward,
        p_ward,
        q_ward,
        work,
    );
    give_summary(
        answer,
        n_buses_reduced,
        n_buses_equivalent,
        reduction_ratio,
        rows_reduced,
    );
    number_of(answer)
}

// `ward_equivalent::compute_extended`, in the same units: voltages and their corrections in per unit, compensations in MVAr.
#[unsafe(no_mangle)]
pub extern "C" fn jeturipe_ward_compute_extended(
    n: usize,
    y: &[f64],
    numbers: &[u32],
    internal: &[u32],
    external: &[u32],
    boundary: &[u32],
    base_mva: f64,
    p_ext: &[f64],
    q_ext: &[f64],
    v_ext: &[f64],
    allowance: usize,
    y_ward: &mut [f64],
    p_ward: &mut [f64],
    q_ward: &mut [f64],
    voltage_correction: &mut [f64],
    q_compensation: &mut [f64],
    work: &mut [f64],
    n_buses_reduced: &mut usize,
    n_buses_equivalent: &mut usize,
    reduction_ratio: &mut f64,
    rows_reduced: &mut usize,
) -> u32
    ensures { spec.ExtendedAnswered
        (ward.after_compute_extended (ward.numbered_extended_of (ward.numbered_of numbers.now
        (calls.study_of n y.now internal.now external.now boundary.now base_mva
        p_ext.now q_ext.now)) v_ext.now)
        (Rows allowance)
        (calls.extended_outputs_of
        (calls.outputs_of y_ward.old p_ward.old q_ward.old work.old)
        voltage_correction.old q_compensation.old))
        result
        (calls.extended_outputs_of (calls.outputs_of y_ward.new p_ward.new q_ward.new work.new)
        voltage_correction.new q_compensation.new)
        (answers.summary_of n_buses_reduced.old n_buses_equivalent.old reduction_ratio.old
        rows_reduced.old)
        (answers.summary_of n_buses_reduced.new n_buses_equivalent.new reduction_ratio.new
        rows_reduced.new) }
{
    let answer = equivalents::ward::compute_extended(
        n,
        y,
        numbers,
        internal,
        external,
        boundary,
        base_mva,
        p_ext,
        q_ext,
        v_ext,
        Allowance::Rows(allowance),
        y_ward,
        p_ward,
        q_ward,
        voltage_correction,
        q_compensation,
        work,
    );
    give_summary(
        answer,
        n_buses_reduced,
        n_buses_equivalent,
        reduction_ratio,
        rows_reduced,
    );
    number_of(answer)
}
