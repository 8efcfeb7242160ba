// A reducer's record in a byte slice: read, and written where a call is not refused.
ghost use Rattle.std.specs.Prelude.{◌≡◌, length};
ghost use Rattle.refusals.specs.Refusals.{number_of};
ghost use Rattle.entries.specs.Records as spec;

use kron_reduction::KronReducer;
use number_bytes::{Stored, read, write};
use refusals::{LIMIT, Refusal};

// The two sizes, and the rows of the active buses, a byte each.
const FRONT: usize = 16 + LIMIT;

// The bytes of a record: these, and the numbers of the buses.
pub const RECORD: usize = FRONT + 4 * LIMIT;

// The rows of the active buses, a byte each, of a record, whose memory is fixed.
#[tactic(auto, unfolding(crate::specs::Records::active_in))]
fn active_in(s: &[u8]) -> [u8; LIMIT]
    requires { length s.now ≡ spec.record_bytes }
    ensures { result ≡ spec.active_in s.now }
{
    let mut active = [0; LIMIT];
    active.copy_from_slice(&s[16..FRONT]);
    active
}

// The numbers of the buses, 4 bytes each, of a record, whose memory is fixed.
fn numbers_in(s: &[u8]) -> [u32; LIMIT]
    requires { length s.now ≡ spec.record_bytes }
    ensures { result ≡ spec.numbers_in s.now }
{
    let mut numbers = [0; LIMIT];
    read(&s[FRONT..RECORD], &mut numbers);
    numbers
}

// The record in the slice; of all zeros where the slice is not of a record's length in bytes.
pub fn record_in(s: &[u8]) -> KronReducer
    ensures { result ≡ spec.record_in s.now }
{
    if s.len() != RECORD {
        return KronReducer {
            made: 0,
            n_buses: 0,
            active_buses: [0; LIMIT],
            numbers: [0; LIMIT],
        };
    }
    KronReducer {
        made: usize::at(s, 0),
        n_buses: usize::at(s, 8),
        active_buses: active_in(s),
        numbers: numbers_in(s),
    }
}

// The sizes and the rows of a record, before its numbers.
fn write_front(s: &mut [u8], r: KronReducer)
    requires { length s.old ≡ spec.front_bytes }
    ensures { s.new ≡ spec.front_of r }
{
    r.made.put(s, 0);
    r.n_buses.put(s, 8);
    s[16..FRONT].copy_from_slice(&r.active_buses);
}

// A whole record.
fn write_record(s: &mut [u8], r: KronReducer)
    requires { length s.old ≡ spec.record_bytes }
    ensures { s.new ≡ spec.in_bytes r }
{
    write_front(&mut s[0..FRONT], r);
    write(&mut s[FRONT..RECORD], &r.numbers);
}

// Writes the record where the answer refuses nothing.
#[tactic(auto, using(dc_flow::proofs::Accepted::numbered), unfolding(crate::specs::Records::stored_record))]
pub fn store_record(s: &mut [u8], r: KronReducer, answer: Result<(), Refusal>)
    ensures { s.new ≡ spec.stored_record (number_of answer) r s.old }
{
    if answer.is_ok() && s.len() == RECORD {
        write_record(s, r);
    }
}
