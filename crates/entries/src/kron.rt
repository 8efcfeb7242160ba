// Kron reduction. The record is a byte slice of exactly RECORD bytes; where it has another length the call is refused and nothing is
// touched. Admittances are in per unit; buses are named by the numbers given at making.
ghost use Rattle.std.specs.Prelude.{◌≡◌, ◌||◌, ltb};
ghost use Rattle.refusals.specs.Refusals as refusals;
ghost use Rattle.refusals.specs.Refusals.{limit, too_many, wrong_length, refuse};
ghost use Rattle.complex.specs.Arithmetic.{complex_of};
ghost use Rattle.entries.specs.Kron as spec;

use crate::answers::{give_count, give_value};
use crate::records::{RECORD, record_in, store_record};
use equivalents::kron::{KronReducer, eliminated_bus, eliminated_buses};
use refusals::{LIMIT, Refusal, number_of};

// The refusal where the record is not of its length: 1 for a size or a list above the limit, else 2.
#[tactic(auto, using(refusals::proofs::Refusing::refusing))]
fn unfit(n: usize, l: usize) -> Refusal
    ensures { refusals.number result ≡ refuse (ltb limit n || ltb limit l) too_many wrong_length }
{
    if n > LIMIT || l > LIMIT {
        Refusal::TooMany
    } else {
        Refusal::WrongLength
    }
}

// Makes a reducer of n buses: y is its matrix (2 n n numbers, in per unit), numbers the number of each row's bus, rec its record.
#[unsafe(no_mangle)]
pub extern "C" fn jeturipe_kron_new(n: usize, y: &[f64], numbers: &[u32], rec: &mut [u8]) -> u32
    ensures { spec.ReducerMade n y.now numbers.now rec.old result rec.new }
{
    if rec.len() != RECORD {
        return unfit(n, numbers.len()).number();
    }
    match KronReducer::new(n, y, numbers) {
        Ok(record) => {
            store_record(rec, record, Ok(()));
            0
        }
        Err(refusal) => refusal.number(),
    }
}

// Removes one bus: y (in per unit) and rec are then those of the buses left.
#[unsafe(no_mangle)]
pub extern "C" fn jeturipe_eliminate_bus(rec: &mut [u8], y: &mut [f64], bus: u32) -> u32
    ensures { spec.BusRemoved rec.old y.old bus result rec.new y.new }
{
    if rec.len() != RECORD {
        return Refusal::WrongLength.number();
    }
    let taken = eliminated_bus(record_in(rec), y, bus);
    store_record(rec, taken.rec, taken.answer);
    number_of(taken.answer)
}

// The answer where it is told from the input; none is refused where a list is carried out or stopped, by 11, 12 or 20.
#[tactic(auto, unfolding(crate::specs::Kron::from_input))]
fn from_input(answer: Result<(), Refusal>) -> Result<(), Refusal>
    ensures { refusals.number_of result ≡ spec.from_input (refusals.number_of answer) }
{
    match answer {
        Err(Refusal::NotActive | Refusal::SmallEntry | Refusal::ComputedNotFinite) => Ok(()),
        told => told,
    }
}

// The answer of a list that removed no bus, else none is refused.
#[tactic(auto, unfolding(crate::specs::Kron::none_removed))]
fn none_removed(answer: Result<(), Refusal>, count: usize) -> Result<(), Refusal>
    ensures { refusals.number_of result ≡ spec.none_removed (refusals.number_of answer) count }
{
    if count == 0 { answer } else { Ok(()) }
}

// Removes the buses of a list, in order, up to the first refused one; removed is how many it removed, also where 11, 12 or 20 stops
// it.
#[unsafe(no_mangle)]
pub extern "C" fn jeturipe_eliminate_buses(
    rec: &mut [u8],
    y: &mut [f64],
    buses: &[u32],
    removed: &mut usize,
) -> u32
    ensures { spec.ListRemoved rec.old y.old buses.now removed.old
        result rec.new y.new removed.new }
{
    if rec.len() != RECORD {
        return unfit(0, buses.len()).number();
    }
    let taken = eliminated_buses(record_in(rec), y, buses);
    let answer = taken.removals.answer;
    let count = taken.removals.removed;
    store_record(rec, taken.rec, none_removed(answer, count));
    give_count(removed, count, from_input(answer));
    number_of(answer)
}

// The number of each present row's bus, in order, at the front of buses (one place for each row at making), 0 behind; count is how many.
#[unsafe(no_mangle)]
pub extern "C" fn jeturipe_active_buses(rec: &[u8], buses: &mut [u32], count: &mut usize) -> u32
    ensures { spec.ActiveRead rec.now buses.old count.old
        result buses.new count.new }
{
    if rec.len() != RECORD {
        return Refusal::WrongLength.number();
    }
    let r = record_in(rec);
    let present = r.n_buses;
    let answer = equivalents::kron::active_buses(r, buses);
    give_count(count, present, answer);
    number_of(answer)
}

// Copies the present rows, in per unit, to the front of out, +0 behind.
#[unsafe(no_mangle)]
pub extern "C" fn jeturipe_reduced_matrix(rec: &[u8], y: &[f64], out: &mut [f64]) -> u32
    ensures { spec.MatrixRead rec.now y.now out.old result out.new }
{
    if rec.len() != RECORD {
        return Refusal::WrongLength.number();
    }
    number_of(equivalents::kron::reduced_matrix(record_in(rec), y, out))
}

// The Thevenin impedance between two active buses, in per unit.
#[unsafe(no_mangle)]
pub extern "C" fn jeturipe_thevenin_impedance(
    rec: &[u8],
    y: &[f64],
    bus_i: u32,
    bus_j: u32,
    work: &mut [f64],
    z_re: &mut f64,
    z_im: &mut f64,
) -> u32
    ensures { spec.ImpedanceRead rec.now y.now bus_i bus_j work.old
        (complex_of z_re.old z_im.old)
        result work.new (complex_of z_re.new z_im.new) }
{
    if rec.len() != RECORD {
        return Refusal::WrongLength.number();
    }
    let answer = equivalents::kron::thevenin_impedance(record_in(rec), y, bus_i, bus_j, work);
    give_value(answer, z_re, z_im);
    number_of(answer)
}
