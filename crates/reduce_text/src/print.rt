// Printing: each function writes one text at an index of the output and answers the next index.
// They are called where there is room for the text.
// Output and index go side by side: text_numbers!print says why.
ghost use Rattle.std.specs.Prelude.{◌*◌, ◌<◌, ◌≤◌, length};
ghost use Rattle.refusals.specs.Refusals.{number};
ghost use Rattle.text_numbers.specs.Inner.Writing.{HasRoom, Wrote};
ghost use Rattle.reduce_text.specs.Printing as spec;

use crate::read::{Reading, Trouble};
use binary64::words::to_word;
use complex::Complex;
use complex::entry::get;
use kron_reduction::{KronReducer, active_numbers};
use refusals::Refusal;
use text_numbers::print::{put, put_byte, put_decimal, put_hex};

// The number between a keyword and a line feed.
fn put_line(out: &mut [u8], at: usize, key: &[u8], n: u64) -> usize
    requires { HasRoom out.old at (spec.number_line key.now n) }
    ensures { Wrote out.old at (spec.number_line key.now n) result out.new }
{
    let a = put(out, at, key);
    let b = put_decimal(out, a, n);
    put_byte(out, b, b'\n')
}

fn put_refused(out: &mut [u8], refusal: Refusal, bus: u64) -> usize
    requires { HasRoom out.old 0 (spec.refused_text (number refusal) bus) }
    ensures { Wrote out.old 0 (spec.refused_text (number refusal) bus) result out.new }
{
    let a = put(out, 0, b"refused ");
    let b = put_decimal(out, a, u64::from(refusal.number()));
    put_line(out, b, b" ", bus)
}

fn put_trouble(out: &mut [u8], trouble: Trouble) -> usize
    requires { HasRoom out.old 0 (spec.trouble_text trouble) }
    ensures { Wrote out.old 0 (spec.trouble_text trouble) result out.new }
{
    match trouble {
        Trouble::RefusedDrop(refusal, bus) => put_refused(out, refusal, bus),
        Trouble::BadLine(p) => put_line(out, 0, b"bad line ", p as u64),
    }
}

fn put_entry(out: &mut [u8], at: usize, c: Complex) -> usize
    requires { HasRoom out.old at (spec.entry_line c) }
    ensures { Wrote out.old at (spec.entry_line c) result out.new }
{
    let re = to_word(c.re);
    let im = to_word(c.im);
    let a = put_hex(out, at, re);
    let b = put_byte(out, a, b' ');
    let d = put_hex(out, b, im);
    put_byte(out, d, b'\n')
}

fn put_buses(out: &mut [u8], at: usize, buses: &[u32]) -> usize
    requires { HasRoom out.old at (spec.bus_lines (length buses.now) buses.now) }
    ensures { Wrote out.old at (spec.bus_lines (length buses.now) buses.now) result out.new }
{
    let mut p = at;
    for bus in buses {
        p = put_line(out, p, b"bus ", u64::from(*bus));
    }
    p
}

fn put_entries(out: &mut [u8], at: usize, ys: &[f64], n: usize) -> usize
    requires { (2 * n ≤ length ys.now) × HasRoom out.old at (spec.entry_lines n ys.now) }
    ensures { Wrote out.old at (spec.entry_lines n ys.now) result out.new }
{
    let mut p = at;
    for i in 0..n {
        p = put_entry(out, p, get(ys, i));
    }
    p
}

fn put_kept(out: &mut [u8], rec: KronReducer, ys: &[f64]) -> usize
    requires { spec.Whole rec ys.now × HasRoom out.old 0 (spec.kept_text rec ys.now) }
    ensures { Wrote out.old 0 (spec.kept_text rec ys.now) result out.new }
{
    let n = rec.n_buses;
    let buses = active_numbers(rec);
    let a = put_line(out, 0, b"kept ", n as u64);
    let b = put_buses(out, a, &buses[..n]);
    put_entries(out, b, ys, n * n)
}

// How a run ended, from the start of the output on; ys begins with the run's numbers.
pub fn print(out: &mut [u8], reading: Reading, ys: &[f64]) -> usize
    requires { spec.Whole reading.rec ys.now × HasRoom out.old 0 (spec.text_of reading.end reading.rec ys.now) }
    ensures { Wrote out.old 0 (spec.text_of reading.end reading.rec ys.now) result out.new }
{
    match reading.end {
        Ok(()) => put_kept(out, reading.rec, ys),
        Err(trouble) => put_trouble(out, trouble),
    }
}
