// Kron reduction of a bus matrix that stands in a lent slice.
#![tactic(auto)]

ghost use Rattle.std.specs.Prelude.{◌≡◌, List, [], ◌++◌, ◌*◌, ◌-◌, ◌≤◌, ◌<◌, T, length, take, Float};
ghost use Rattle.std.specs.Result.{result_unwrap_or};
ghost use Rattle.binary64.specs.Values.{all_finite, F64s};
ghost use Rattle.complex.specs.Entries.{entry};
ghost use Rattle.complex.specs.Inner.Ordinary.{all_ordinary};
ghost use Rattle.complex.specs.Matrices.{zeros};
ghost use Rattle.lists.specs.Buses.{up_to, found_in};
ghost use Rattle.refusals.specs.Refusals.{limit, outcome};
ghost use Rattle.kron_reduction.specs.Reducer.{padded, reducer_input_of, making_shape_refusal, making_refusal, record_of, after_new, made};
ghost use Rattle.kron_reduction.specs.Reducer.{active_of, sound_rows, sound_numbers, sound, input_shape_refusal, present, input_refusal};
ghost use Rattle.kron_reduction.specs.Reducer.{row_of, removals_of, after_bus, after_buses};
ghost use Rattle.kron_reduction.specs.Reading.{reading_shape_refusal, reading_refusal, after_matrix};
ghost use Rattle.kron_reduction.specs.Reading.{active_numbers, active_refusal};
ghost use Rattle.kron_reduction.specs.Reading.{after_active, after_impedance};

use crate::careful::Front;
use crate::removal::{find_bus, in_order};
use crate::thevenin::impedance_between;
use binary64::finite::all_finite;
use complex::Complex;
use complex::slices::clear;
use lists::checks::{all_are, repeats};
use lists::numbers::{find, rows_of};
use refusals::{LIMIT, Refusal};

mod careful;
mod removal;
mod thevenin;

const ROW: usize = 2 * LIMIT;

// The size at making, the present size, the active buses by their rows at making, rising, and the number of each row at making;
// 0 in the places behind both. Only here a bus is a row: the calls and their answers, `active_buses` too, name it by number.
// Arrays with their lengths beside them: fixed memory, and the bytes that the C interface hands out hold them so.
#[derive(Clone, Copy)]
pub struct KronReducer {
    pub made: usize,
    pub n_buses: usize,
    pub active_buses: [u8; LIMIT],
    pub numbers: [u32; LIMIT],
}

// What the removal of one bus answers, and the record after it. A refused one leaves a record too, so the answer stands beside it.
#[derive(Clone, Copy)]
pub struct AfterRemoval {
    pub answer: Result<(), Refusal>,
    pub rec: KronReducer,
}

// What a list of removals answers: also how many were carried out, which a refused list tells too.
#[derive(Clone, Copy)]
pub struct Removals {
    pub answer: Result<(), Refusal>,
    pub removed: usize,
}

#[derive(Clone, Copy)]
pub struct AfterRemovals {
    pub removals: Removals,
    pub rec: KronReducer,
}

// ---- making

// The buses 0, 1, .. n - 1, and 0 behind them, in a record's fixed memory.
fn first_buses(n: usize) -> [u8; LIMIT]
    requires { n ≤ limit }
    ensures { result ≡ padded (up_to n) }
{
    let mut active = [0; LIMIT];
    for i in 0..n {
        active[i] = i as u8;
    }
    active
}

// The numbers, and 0 behind them, in a record's fixed memory.
fn in_places(numbers: &[u32]) -> [u32; LIMIT]
    requires { length numbers.now ≤ limit }
    ensures { result ≡ padded numbers.now }
{
    let mut places = [0; LIMIT];
    places[0..numbers.len()].copy_from_slice(numbers);
    places
}

// What size, lengths and numbers tell of a making from a slice of `len` numbers: refused with 1, 2 or 8.
#[tactic(auto, using(crate::proofs::Look::by), unfolding(crate::specs::Reducer::making_shape_refusal, refusals::specs::Refusals::answered))]
fn making_shape_refusal(n: usize, len: usize, numbers: &[u32]) -> Result<(), Refusal>
    ensures { (ys : List Float) → length ys ≡ len → result ≡ outcome (making_shape_refusal (reducer_input_of n ys numbers.now)) }
{
    if n > LIMIT || numbers.len() > LIMIT {
        return Err(Refusal::TooMany);
    }
    if len != 2 * (n * n) || numbers.len() != n {
        return Err(Refusal::WrongLength);
    }
    if repeats(numbers) {
        return Err(Refusal::BusTwice);
    }
    Ok(())
}

// A making is refused with 1, 2, 8 or 19.
fn making_refusal(n: usize, y: &[f64], numbers: &[u32]) -> Result<(), Refusal>
    ensures { result ≡ outcome (making_refusal (reducer_input_of n y.now numbers.now)) }
{
    making_shape_refusal(n, y.len(), numbers)?;
    if !all_finite(y) {
        return Err(Refusal::GivenNotFinite);
    }
    Ok(())
}

impl KronReducer {
    // The record of buses with these numbers, all active.
    fn of_numbers(numbers: &[u32]) -> KronReducer
        requires { length numbers.now ≤ limit }
        ensures { result ≡ record_of (length numbers.now) numbers.now (up_to (length numbers.now)) }
    {
        let n = numbers.len();
        KronReducer {
            made: n,
            n_buses: n,
            active_buses: first_buses(n),
            numbers: in_places(numbers),
        }
    }

    // The record of n buses, all active: y holds n rows of n entries, real then imaginary, in per unit, and `numbers` the number of each
    // row's bus. Refusals: 1, 2, 8, 19. `made` is the record answered, and of no bus after a refusal: removals go on from it.
    pub fn new(n: usize, y: &[f64], numbers: &[u32]) -> Result<KronReducer, Refusal>
        ensures { (result ≡ after_new (reducer_input_of n y.now numbers.now))
            × F64s y.now
            × (result_unwrap_or result (record_of 0 [] []) ≡ made (reducer_input_of n y.now numbers.now)) }
    {
        making_refusal(n, y, numbers)?;
        Ok(KronReducer::of_numbers(numbers))
    }
}

// ---- a record and its slice

impl KronReducer {
    // Whether no number stands twice, with 0 in the places behind.
    #[tactic(auto, using(crate::proofs::Look::by), unfolding(crate::specs::Reducer::sound_numbers))]
    fn numbers_sound(&self) -> bool
        requires { self.now.made ≤ limit }
        ensures { result ≡ sound_numbers self.now }
    {
        !repeats(&self.numbers[0..self.made]) && all_are(&self.numbers[self.made..], 0)
    }

    // Whether the active rows rise below the size at making and are as many as the present size, with 0 in the places behind.
    #[tactic(auto, unfolding(crate::specs::Reducer::sound_rows))]
    fn rows_sound(&self) -> bool
        ensures { result ≡ sound_rows self.now }
    {
        self.n_buses <= LIMIT
            && in_order(self.made, &self.active_buses[0..self.n_buses])
            && all_are(&self.active_buses[self.n_buses..], 0)
    }

    // Whether a record made within the limit is sound, in its rows and in its numbers.
    fn is_sound(&self) -> bool
        requires { self.now.made ≤ limit }
        ensures { result ≡ sound self.now }
    {
        self.rows_sound() && self.numbers_sound()
    }

    // What the record, a slice of `len` numbers and a list of `count` buses tell: refused with 1, 2 or 9.
    #[tactic(auto, unfolding(crate::specs::Reducer::input_shape_refusal, refusals::specs::Refusals::answered))]
    fn input_shape_refusal(&self, len: usize, count: usize) -> Result<(), Refusal>
        ensures { (ys : List Float) → length ys ≡ len → result ≡ outcome (input_shape_refusal self.now ys count) }
    {
        let made = self.made;
        if made > LIMIT || count > LIMIT {
            return Err(Refusal::TooMany);
        }
        if len != 2 * (made * made) {
            return Err(Refusal::WrongLength);
        }
        if !self.is_sound() {
            return Err(Refusal::BadRecord);
        }
        Ok(())
    }
}

// ---- removal

impl KronReducer {
    // A list of removals whose input is accepted. `ordinary` says that the present rows are of ordinary size.
    fn remove_accepted(&mut self, y: &mut [f64], buses: &[u32], ordinary: bool) -> Removals
        requires { (input_refusal self.old y.old (length buses.now) ≡ 0)
            × (T ordinary → T (all_ordinary (present self.old y.old))) }
        ensures { (result ≡ (after_buses self.old y.old buses.now).out.removals)
            × (self.new ≡ (after_buses self.old y.old buses.now).out.rec)
            × (y.new ≡ (after_buses self.old y.old buses.now).slice) }
    {
        let count = buses.len();
        // fixed memory, as no library crate takes any from the heap
        let mut rows = [0; LIMIT];
        rows_of(&self.numbers[0..self.made], buses, &mut rows[0..count]);
        let mut row = [0.0; ROW];
        let ran = self.remove_list(y, &mut row, &rows[0..count], ordinary);
        if ran.removed == 0 {
            return ran;
        }
        let m = self.n_buses;
        let a = 2 * (m * m);
        let e = y.len();
        clear(&mut y[a..e]);
        ran
    }

    // The buses of a list are removed in order, up to the first that is refused.
    fn remove(&mut self, y: &mut [f64], buses: &[u32]) -> Removals
        ensures { (result ≡ (after_buses self.old y.old buses.now).out.removals)
            × (self.new ≡ (after_buses self.old y.old buses.now).out.rec)
            × (y.new ≡ (after_buses self.old y.old buses.now).slice) }
    {
        if let Err(refusal) = self.input_shape_refusal(y.len(), buses.len()) {
            return Removals {
                answer: Err(refusal),
                removed: 0,
            };
        }
        let present = Front { n: self.n_buses, y };
        let ordinary = present.is_ordinary();
        if !ordinary && !present.is_finite() {
            return Removals {
                answer: Err(Refusal::GivenNotFinite),
                removed: 0,
            };
        }
        self.remove_accepted(y, buses, ordinary)
    }
}

// The buses of a list are removed from the record and from y, in per unit, in order, up to the first that is refused. Refusals: 1, 2, 9,
// 19; then 11, 12 or 20 as the list meets them.
pub fn remove_buses(r: KronReducer, y: &mut [f64], buses: &[u32]) -> AfterRemovals
    ensures { (result ≡ (after_buses r y.old buses.now).out)
        × (y.new ≡ (after_buses r y.old buses.now).slice) }
{
    let mut rec = r;
    let removals = rec.remove(y, buses);
    AfterRemovals { removals, rec }
}

// One bus is removed from the record and from y, in per unit. Refusals: 1, 2, 9, 19; 11; 12 or 20.
pub fn remove_bus(r: KronReducer, y: &mut [f64], bus: u32) -> AfterRemoval
    ensures { (result ≡ (after_bus r y.old bus).out) × (y.new ≡ (after_bus r y.old bus).slice) }
{
    let mut rec = r;
    let answer = rec.remove(y, &[bus]).answer;
    AfterRemoval { answer, rec }
}

// ---- reading

impl KronReducer {
    // The present row of the bus with this number, or nothing.
    fn find_number(&self, bus: u32) -> Option<usize>
        requires { (self.now.made ≤ limit) × T (sound self.now) }
        ensures { result ≡ found_in (row_of self.now bus) (active_of self.now) }
    {
        let row = find(&self.numbers[0..self.made], bus)?;
        find_bus(&self.active_buses[0..self.n_buses], row)
    }

    // What the record, a slice of `len` numbers and a second of m, which must have `per` for each entry at making, tell: refused with 1, 2
    // or 9.
    #[tactic(auto, unfolding(crate::specs::Reading::reading_shape_refusal, refusals::specs::Refusals::answered))]
    fn reading_shape_refusal(&self, len: usize, m: usize, per: usize) -> Result<(), Refusal>
        requires { per ≤ 4 }
        ensures { (ys : List Float) → length ys ≡ len → result ≡ outcome (reading_shape_refusal per self.now ys m) }
    {
        let made = self.made;
        if made > LIMIT {
            return Err(Refusal::TooMany);
        }
        if m != per * (made * made) {
            return Err(Refusal::WrongLength);
        }
        self.input_shape_refusal(len, 0)
    }

    // A call with a second slice of m numbers, which must have `per` for each entry at making, is refused with 1, 2, 9 or 19.
    fn reading_refusal(&self, y: &[f64], m: usize, per: usize) -> Result<(), Refusal>
        requires { per ≤ 4 }
        ensures { result ≡ outcome (reading_refusal per self.now y.now m) }
    {
        self.reading_shape_refusal(y.len(), m, per)?;
        let front = Front { n: self.n_buses, y };
        if !front.is_finite() {
            return Err(Refusal::GivenNotFinite);
        }
        Ok(())
    }

    // A call with an output of m bus numbers, one for each row at making, is refused with 1, 2 or 9.
    #[tactic(auto, unfolding(crate::specs::Reading::active_refusal, refusals::specs::Refusals::answered))]
    fn active_refusal(&self, m: usize) -> Result<(), Refusal>
        ensures { result ≡ outcome (active_refusal self.now m) }
    {
        if self.made > LIMIT {
            return Err(Refusal::TooMany);
        }
        if m != self.made {
            return Err(Refusal::WrongLength);
        }
        if self.is_sound() {
            Ok(())
        } else {
            Err(Refusal::BadRecord)
        }
    }
}

// The present rows of y, in per unit, are copied to `out`, +0 behind. Refusals: 1, 2, 9, 19.
pub fn reduced_matrix(r: KronReducer, y: &[f64], out: &mut [f64]) -> Result<(), Refusal>
    ensures { (result ≡ (after_matrix r y.now out.old).answer)
        × (out.new ≡ (after_matrix r y.now out.old).out) }
{
    r.reading_refusal(y, out.len(), 2)?;
    let front = Front { n: r.n_buses, y };
    front.copy_to(out);
    Ok(())
}

// The numbers of the active buses, in the order of their rows, and 0 behind them.
pub fn active_numbers(r: KronReducer) -> [u32; LIMIT]
    requires { (r.made ≤ limit) × T (sound r) }
    ensures { result ≡ padded (active_numbers r) }
{
    // fixed memory, as no library crate takes any from the heap
    let mut list = [0; LIMIT];
    for i in 0..r.n_buses {
        let row = r.active_buses[i] as usize;
        list[i] = r.numbers[row];
    }
    list
}

// The number of each present row's bus, in order, in `out`, 0 behind. Refusals: 1, 2, 9.
pub fn active_buses(r: KronReducer, out: &mut [u32]) -> Result<(), Refusal>
    ensures { (result ≡ (after_active r out.old).answer) × (out.new ≡ (after_active r out.old).buses) }
{
    r.active_refusal(out.len())?;
    let list = active_numbers(r);
    let count = out.len();
    out.copy_from_slice(&list[0..count]);
    Ok(())
}

// The impedance seen between two buses, in per unit, from the inverse, for which every island needs a shunt to ground: without one 13,
// which tells only pivots below 1e-150 in size, seldom comes, and the answer is noise. Refusals: 1, 2, 9, 19; 11, of the first bus or of
// the second; 13 or 20 as the work meets them.
// The work slice has four numbers for each entry at making; it is +0 after an answer, 13 or 20.
pub fn thevenin_impedance(
    r: KronReducer,
    y: &[f64],
    bus_i: u32,
    bus_j: u32,
    work: &mut [f64],
) -> Result<Complex, Refusal>
    ensures { (result ≡ (after_impedance r y.now bus_i bus_j work.old).answer)
        × (work.new ≡ (after_impedance r y.now bus_i bus_j work.old).work) }
{
    r.reading_refusal(y, work.len(), 4)?;
    let Some(i) = r.find_number(bus_i) else {
        return Err(Refusal::NotActive);
    };
    let Some(j) = r.find_number(bus_j) else {
        return Err(Refusal::NotActive);
    };
    let front = Front { n: r.n_buses, y };
    impedance_between(&front, i, j, work)
}
