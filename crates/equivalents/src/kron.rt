// Kron reduction as the Rust offers it: the record changed behind a `&mut`, over kron_reduction's functions on a record by value. Buses
// are named by the numbers given at making; admittances are in per unit.
ghost use Rattle.std.specs.Prelude.{◌≡◌};
ghost use Rattle.kron_reduction.specs.Reducer.{after_bus, after_buses};

pub use kron_reduction::{
    AfterRemoval, AfterRemovals, KronReducer, Removals, active_buses, reduced_matrix,
    thevenin_impedance,
};
pub use refusals::{Refusal, number_of};

// Removes one bus.
pub fn eliminate_bus(r: &mut KronReducer, y: &mut [f64], bus: u32) -> Result<(), Refusal>
    ensures { (result ≡ (after_bus r.old y.old bus).out.answer)
        × (r.new ≡ (after_bus r.old y.old bus).out.rec)
        × (y.new ≡ (after_bus r.old y.old bus).slice) }
{
    let out = kron_reduction::remove_bus(*r, y, bus);
    *r = out.rec;
    out.answer
}

// Removes the buses of a list, in order, up to the first refused one.
pub fn eliminate_buses(r: &mut KronReducer, y: &mut [f64], buses: &[u32]) -> Removals
    ensures { (result ≡ (after_buses r.old y.old buses.now).out.removals)
        × (r.new ≡ (after_buses r.old y.old buses.now).out.rec)
        × (y.new ≡ (after_buses r.old y.old buses.now).slice) }
{
    let out = kron_reduction::remove_buses(*r, y, buses);
    *r = out.rec;
    out.removals
}

// `eliminate_bus` on a record of one's own, for callers that hold it by value.
pub fn eliminated_bus(r: KronReducer, y: &mut [f64], bus: u32) -> AfterRemoval
    ensures { (result ≡ (after_bus r y.old bus).out) × (y.new ≡ (after_bus r y.old bus).slice) }
{
    let mut rec = r;
    let answer = eliminate_bus(&mut rec, y, bus);
    AfterRemoval { answer, rec }
}

// `eliminate_buses` likewise.
pub fn eliminated_buses(r: KronReducer, y: &mut [f64], buses: &[u32]) -> AfterRemovals
    ensures { (result ≡ (after_buses r y.old buses.now).out)
        × (y.new ≡ (after_buses r y.old buses.now).slice) }
{
    let mut rec = r;
    let removals = eliminate_buses(&mut rec, y, buses);
    AfterRemovals { removals, rec }
}
