// The DC parts. Buses are rows, counted from 0, branches by the from list.
ghost use Rattle.std.specs.Prelude.{◌≡◌, length};
ghost use Rattle.refusals.specs.Refusals as refusals;
ghost use Rattle.dc_flow.specs.Dc as spec;
ghost use Rattle.entries.specs.Answers as answers;

use crate::answers::give;
use refusals::number_of;

// The buses of 0 .. n - 1 that interior lacks, rising, at the front of retained (n numbers), 0 behind; count is how many.
#[unsafe(no_mangle)]
pub extern "C" fn jeturipe_retained_buses(
    n: usize,
    interior: &[usize],
    retained: &mut [usize],
    count: &mut usize,
) -> u32
    ensures { (result ≡ refusals.number_of (spec.retained_answer n interior.now retained.old))
        × (retained.new ≡ spec.retained_output n interior.now retained.old)
        × (count.new
        ≡ answers.count_after (spec.retained_answer n interior.now retained.old) count.old) }
{
    let answer = equivalents::dc::retained_buses(n, interior, retained);
    give(answer, count);
    number_of(answer)
}

// The matrix of susceptances (n n numbers, per unit) of branches with reactances branch_x in per unit.
#[unsafe(no_mangle)]
pub extern "C" fn jeturipe_build_b_bus(
    n: usize,
    branch_from: &[usize],
    branch_to: &[usize],
    branch_x: &[f64],
    b: &mut [f64],
) -> u32
    ensures { (result ≡ refusals.number_of (refusals.outcome
        (spec.build_refusal n branch_from.now branch_to.now branch_x.now
        (length b.old))))
        × (b.new
        ≡ spec.built_output n branch_from.now branch_to.now branch_x.now b.old) }
{
    number_of(equivalents::dc::build_b_bus(n, branch_from, branch_to, branch_x, b))
}

// Outage factors, without unit: ptdf has a row of n numbers a branch; row l, column k of lodf is for branch l and the outage of branch k.
#[unsafe(no_mangle)]
pub extern "C" fn jeturipe_lodf_matrix(
    n: usize,
    ptdf: &[f64],
    branch_from: &[usize],
    branch_to: &[usize],
    lodf: &mut [f64],
) -> u32
    ensures { (result ≡ refusals.number_of (refusals.outcome
        (spec.lodf_refusal n ptdf.now branch_from.now branch_to.now
        (length lodf.old))))
        × (lodf.new
        ≡ spec.lodf_output n ptdf.now branch_from.now branch_to.now lodf.old) }
{
    number_of(equivalents::dc::lodf_matrix(n, ptdf, branch_from, branch_to, lodf))
}
