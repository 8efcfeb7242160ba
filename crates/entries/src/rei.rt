// The REI equivalent. What the lists call the buses is the caller's own.
ghost use Rattle.entries.specs.Answers as answers;
ghost use Rattle.entries.specs.Studies as spec;

use crate::answers::give_equivalent;
use refusals::number_of;

// The REI equivalent of generators and loads: rows of y_sub (per unit) and injections (MW, MVAr) are the generators, then the loads; so
// are the spokes (per unit). A tie is two buses, as the lists call them, and one admittance in per unit.
#[unsafe(no_mangle)]
pub extern "C" fn jeturipe_rei_compute(
    generator_buses: &[usize],
    load_buses: &[usize],
    y_sub: &[f64],
    p_inj: &[f64],
    q_inj: &[f64],
    next_bus_id: usize,
    spoke_buses: &mut [usize],
    spokes: &mut [f64],
    tie_buses: &mut [usize],
    ties: &mut [f64],
    rei_bus_id: &mut usize,
    rei_voltage_pu: &mut f64,
    rei_p_mw: &mut f64,
    rei_q_mvar: &mut f64,
    n_ties: &mut usize,
) -> u32
    ensures { spec.ReiAnswered
        (record {
          generators = generator_buses.now;
          loads = load_buses.now;
          entries = y_sub.now;
          p = p_inj.now;
          q = q_inj.now;
          bus_id = next_bus_id;
          spoke_buses = spoke_buses.old;
          spokes = spokes.old;
          tie_buses = tie_buses.old;
          ties = ties.old;
        })
        result spoke_buses.new spokes.new tie_buses.new ties.new
        (answers.rei_of rei_bus_id.old rei_voltage_pu.old
        rei_p_mw.old rei_q_mvar.old n_ties.old)
        (answers.rei_of rei_bus_id.new rei_voltage_pu.new
        rei_p_mw.new rei_q_mvar.new n_ties.new) }
{
    let answer = equivalents::rei::compute(
        generator_buses,
        load_buses,
        y_sub,
        p_inj,
        q_inj,
        next_bus_id,
        spoke_buses,
        spokes,
        tie_buses,
        ties,
    );
    give_equivalent(
        answer,
        rei_bus_id,
        rei_voltage_pu,
        rei_p_mw,
        rei_q_mvar,
        n_ties,
    );
    number_of(answer)
}
