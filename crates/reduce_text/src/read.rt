// Reading lines up to the outcome. They are handled strictly in order.
ghost use Rattle.std.specs.Prelude.{◌≡◌, [], ◌+◌, ◌*◌, ◌≤◌, ◌^◌, length, take};
ghost use Rattle.reduce_text.specs.Lines as lines;
ghost use Rattle.reduce_text.specs.Reading as spec;
ghost use Rattle.reduce_text.specs.Inner.Steps as steps;

use crate::MOST;
use crate::text::{ENTRY, entry_line, line_at, number_after};
use binary64::words::of_word;
use complex::Complex;
use complex::entry::put;
use kron_reduction::{KronReducer, remove_bus};
use refusals::{LIMIT, Refusal};
use text_numbers::decimal;

// Why a run keeps nothing: a drop is refused (why, and the bus), or a line is bad (its place from 1).
#[derive(Clone, Copy)]
pub enum Trouble {
    RefusedDrop(Refusal, u64),
    BadLine(usize),
}

// How a run ends, and the reducer's record as it is then.
#[derive(Clone, Copy)]
pub struct Reading {
    pub end: Result<(), Trouble>,
    pub rec: KronReducer,
}

// The reducer of n buses that the lines up to the entries make, and where the next line starts (its index in the input).
#[derive(Clone, Copy)]
pub struct Start {
    pub at: usize,
    pub n: usize,
    pub rec: KronReducer,
}

// Where the drops stop: before a line that is no drop, or the end (index and place), or at a refused one; and the record as it is then.
#[derive(Clone, Copy)]
pub struct Dropped {
    pub stop: Result<(usize, usize), Trouble>,
    pub rec: KronReducer,
}

// The number lines from `from` on, one for each place of `numbers`; none of them may stand twice. Answers where the next line starts.
fn names(input: &[u8], from: usize, numbers: &mut [u32]) -> Result<usize, Trouble>
    requires { (length numbers.old ≤ spec.most) × (from ≤ length input.now + 1) }
    ensures { steps.Numbered input.now from (length numbers.old) result numbers.new }
{
    let mut at = from;
    for i in 0..numbers.len() {
        let line = line_at(input, at);
        let bus = decimal(line).ok_or(Trouble::BadLine(i + 2))?;
        let number = bus as u32;
        if numbers[..i].contains(&number) {
            return Err(Trouble::BadLine(i + 2));
        }
        numbers[i] = number;
        at += line.len() + 1;
    }
    Ok(at)
}

// The entry lines of n buses from `from` on, their numbers at the front of the matrix slice. Answers where the next line starts.
fn entries(input: &[u8], from: usize, n: usize, matrix: &mut [f64]) -> Result<usize, Trouble>
    requires { (n ≤ spec.most) × (2 * (spec.most * spec.most) ≤ length matrix.old) × (from ≤ length input.now + 1) }
    ensures { steps.Filled matrix.old input.now from n result matrix.new }
{
    let first = n + 2;
    let mut at = from;
    for i in 0..n * n {
        let line = line_at(input, at);
        let (re, im) = entry_line(line).ok_or(Trouble::BadLine(i + first))?;
        let entry = Complex {
            re: of_word(re),
            im: of_word(im),
        };
        put(matrix, i, entry);
        at += ENTRY + 1;
    }
    Ok(at)
}

// The reducer of n buses whose number lines start at `from`.
fn reducer(input: &[u8], from: usize, n: usize, matrix: &mut [f64]) -> Result<Start, Trouble>
    requires { (n ≤ spec.most) × (2 * (spec.most * spec.most) ≤ length matrix.old) × (from ≤ length input.now + 1) }
    ensures { steps.Begun (λ (go : spec.Onward). spec.named go n n 2 [] (steps.behind input.now from)) matrix.old
        input.now result matrix.new }
{
    // fixed memory, as no library crate takes any from the heap
    let mut space = [0; MOST];
    let numbers = &mut space[..n];
    let named = names(input, from, numbers)?;
    let at = entries(input, named, n, matrix)?;
    let made = KronReducer::new(n, &matrix[..2 * (n * n)], numbers);
    Ok(Start {
        at,
        n,
        rec: made.unwrap_or(no_reducer()),
    })
}

// The lines up to the entries, whose numbers then stand at the front of the matrix slice, the rest of it as it was.
pub fn made(input: &[u8], matrix: &mut [f64]) -> Result<Start, Trouble>
    requires { 2 * (spec.most * spec.most) ≤ length matrix.old }
    ensures { steps.Begun (λ (go : spec.Onward). spec.first go (lines.lines input.now)) matrix.old input.now result
        matrix.new }
{
    let line = line_at(input, 0);
    let n = number_after(b"buses ", line).ok_or(Trouble::BadLine(1))?;
    if n > MOST as u64 {
        return Err(Trouble::BadLine(1));
    }
    reducer(input, line.len() + 1, n as usize, matrix)
}

// The drop lines from `from` on, the first of them at this place, up to a line that is none.
pub fn drops(input: &[u8], from: usize, place: usize, rec: KronReducer, y: &mut [f64]) -> Dropped
    requires { place ≤ 2 ^ 32 }
    ensures { steps.Drops input.now from place rec y.old result y.new }
{
    let mut rec = rec;
    let mut at = from;
    let mut p = place;
    loop {
        let line = line_at(input, at);
        let Some(bus) = number_after(b"drop ", line) else {
            return Dropped {
                stop: Ok((at, p)),
                rec,
            };
        };
        let t = remove_bus(rec, y, bus as u32);
        rec = t.rec;
        if let Err(refusal) = t.answer {
            return Dropped {
                stop: Err(Trouble::RefusedDrop(refusal, bus)),
                rec,
            };
        }
        at += line.len() + 1;
        p += 1;
    }
}

// What is left is kept where the drops stopped at the end of an input of `len` bytes.
fn end_of(stop: Result<(usize, usize), Trouble>, len: usize) -> Result<(), Trouble>
    ensures { result ≡ steps.end_of len stop }
{
    let (at, place) = stop?;
    if at < len {
        return Err(Trouble::BadLine(place));
    }
    Ok(())
}

// The drops of the reducer that was made, and the end.
fn after_entries(input: &[u8], start: Start, matrix: &mut [f64]) -> Reading
    requires { (start.n ≤ spec.most) × (2 * (spec.most * spec.most) ≤ length matrix.old) }
    ensures { steps.Ended matrix.old (2 * (start.n * start.n))
        (spec.drops spec.finish (steps.place_behind start.n) start.rec (take (2 * (start.n * start.n)) matrix.old)
        (steps.behind input.now start.at)) result matrix.new }
{
    let n = start.n;
    let count = n * n;
    let out = drops(
        input,
        start.at,
        count + (n + 2),
        start.rec,
        &mut matrix[..2 * count],
    );
    Reading {
        end: end_of(out.stop, input.len()),
        rec: out.rec,
    }
}

// The whole input: how it ends, with the numbers at the front of the matrix slice and the rest of that slice as it was.
pub fn read(input: &[u8], matrix: &mut [f64]) -> Reading
    requires { 2 * (spec.most * spec.most) ≤ length matrix.old }
    ensures { steps.RanIn matrix.old (spec.run_of input.now) result matrix.new }
{
    match made(input, matrix) {
        Ok(start) => after_entries(input, start, matrix),
        Err(trouble) => Reading {
            end: Err(trouble),
            rec: no_reducer(),
        },
    }
}

// No reducer is made.
fn no_reducer() -> KronReducer
    ensures { result ≡ spec.no_reducer }
{
    KronReducer {
        made: 0,
        n_buses: 0,
        active_buses: [0; LIMIT],
        numbers: [0; LIMIT],
    }
}
