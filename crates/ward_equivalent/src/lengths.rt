// The refusals of a Ward study that the size and the lengths tell, lowest number first.
// Nothing is multiplied before the lengths are known to be within the limit.
ghost use Rattle.std.specs.Prelude.{◌≡◌, false};
ghost use Rattle.refusals.specs.Refusals.{outcome};
ghost use Rattle.ward_equivalent.specs.Lengths as spec;

use refusals::{LIMIT, Refusal};

// The size of a study, in buses, and the lengths of its lists and slices, in numbers: what is given, then what is written.
#[derive(Clone, Copy)]
pub struct Lengths {
    pub size: usize,
    pub given: usize,
    pub numbers: usize,
    pub internal: usize,
    pub external: usize,
    pub boundary: usize,
    pub p_ext: usize,
    pub q_ext: usize,
    pub v_ext: usize,
    pub y_ward: usize,
    pub p_ward: usize,
    pub q_ward: usize,
    pub correction: usize,
    pub compensation: usize,
    pub work: usize,
}

// More buses than the limit, or a longer list.
#[tactic(auto, unfolding(crate::specs::Lengths::over_limit))]
fn over_limit(l: Lengths) -> bool
    ensures { result ≡ spec.over_limit l }
{
    l.size > LIMIT
        || l.numbers > LIMIT
        || l.internal > LIMIT
        || l.external > LIMIT
        || l.boundary > LIMIT
        || l.p_ext > LIMIT
        || l.q_ext > LIMIT
        || l.v_ext > LIMIT
}

// A slice not of its exact length, or not one number a bus.
#[tactic(auto, unfolding(crate::specs::Lengths::wrong_lengths))]
fn wrong_lengths(l: Lengths) -> bool
    requires { spec.over_limit l ≡ false }
    ensures { result ≡ spec.wrong_lengths l }
{
    let n = l.size;
    let e = l.external;
    let r = l.internal + l.boundary;
    let given = 2 * (n * n);
    let y_ward = 2 * (r * r);
    let work = 2 * (e * (e + r + 1));
    l.given != given
        || l.numbers != n
        || l.y_ward != y_ward
        || l.p_ward != l.boundary
        || l.q_ward != l.boundary
        || l.correction != l.boundary
        || l.compensation != l.boundary
        || l.work != work
}

// Injections or voltages that don't match the external list.
#[tactic(auto, unfolding(crate::specs::Lengths::unmatched))]
fn unmatched(l: Lengths) -> bool
    ensures { result ≡ spec.unmatched l }
{
    l.p_ext != l.external || l.q_ext != l.external || l.v_ext != l.external
}

// Refused with 1, 2 or 3.
#[tactic(auto, unfolding(crate::specs::Lengths::length_refusal, refusals::specs::Refusals::answered))]
pub fn length_refusal(l: Lengths) -> Result<(), Refusal>
    ensures { result ≡ outcome (spec.length_refusal l 0) }
{
    if over_limit(l) {
        return Err(Refusal::TooMany);
    }
    if wrong_lengths(l) {
        return Err(Refusal::WrongLength);
    }
    if unmatched(l) {
        return Err(Refusal::ListsDiffer);
    }
    Ok(())
}
