// The REI equivalent of a set of generator and load buses.
#![tactic(auto)]

ghost use Rattle.rei_equivalent.specs.Rei as spec;

use crate::inputs::{join_lists, sum};
use crate::lengths::Lengths;
use crate::matrix::SubMatrix;
use crate::numbers::{computed_finite, given_finite};
use refusals::Refusal;

mod inputs;
mod lengths;
mod matrix;
mod numbers;
mod spokes;
mod ties;

// The fictitious bus: voltage in per unit, the sum of the injections in MW and MVAr, and how many ties there are.
#[derive(Clone, Copy)]
pub struct ReiEquivalent {
    pub rei_bus_id: usize,
    pub rei_voltage_pu: f64,
    pub rei_p_mw: f64,
    pub rei_q_mvar: f64,
    pub n_ties: usize,
}

// The REI equivalent of the buses, generators first: injections in MW and MVAr, admittances in per unit, real then imaginary.
// The spokes stand in the order of the buses; the ties row by row, with zeros behind them, and their two buses beside.
pub fn compute(
    generator_buses: &[usize],
    load_buses: &[usize],
    y_sub: &[f64],
    p_inj: &[f64],
    q_inj: &[f64],
    next_bus_id: usize,
    spoke_buses: &mut [usize],
    spokes: &mut [f64],
    tie_buses: &mut [usize],
    ties: &mut [f64],
) -> Result<ReiEquivalent, Refusal>
    ensures { spec.AfterRei
        (record {
          generators = generator_buses.now;
          loads = load_buses.now;
          entries = y_sub.now;
          p = p_inj.now;
          q = q_inj.now;
          bus_id = next_bus_id;
          spoke_buses = spoke_buses.old;
          spokes = spokes.old;
          tie_buses = tie_buses.old;
          ties = ties.old;
        })
        result spoke_buses.new spokes.new tie_buses.new ties.new }
{
    let n = generator_buses.len() + load_buses.len();
    let lengths = Lengths {
        p: p_inj.len(),
        q: q_inj.len(),
        y: y_sub.len(),
        spoke_buses: spoke_buses.len(),
        spokes: spokes.len(),
        tie_buses: tie_buses.len(),
        ties: ties.len(),
    };
    lengths.check(n)?;
    if !given_finite(y_sub, p_inj, q_inj) {
        return Err(Refusal::GivenNotFinite);
    }
    let p = sum(p_inj);
    let q = sum(q_inj);
    let y = SubMatrix { n: n, y: y_sub };
    if !computed_finite(p, q, y) {
        return Err(Refusal::ComputedNotFinite);
    }
    join_lists(generator_buses, load_buses, spoke_buses);
    y.spoke_all(spokes);
    let count = y.tie_all(spoke_buses, tie_buses, ties);
    Ok(ReiEquivalent {
        rei_bus_id: next_bus_id,
        rei_voltage_pu: 1.0,
        rei_p_mw: p,
        rei_q_mvar: q,
        n_ties: count,
    })
}
