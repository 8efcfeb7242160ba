// The refusals by number, allowances of row reductions, and the limit that every layer tests.
#![tactic(auto)]

ghost use Rattle.std.specs.Prelude.{◌≡◌};
ghost use Rattle.refusals.specs.Refusals as spec;
ghost use Rattle.refusals.specs.Work as work;

// The most buses, branches or list places that the library takes.
pub const LIMIT: usize = 256;

// The refusals, each with its number. specs/Refusals.antt says when each is told; include/jeturipe.h has the same names.
#[derive(Clone, Copy, PartialEq, Eq, Debug)]
pub enum Refusal {
    TooMany = 1,
    WrongLength = 2,
    ListsDiffer = 3,
    NoBus = 4,
    EmptySystem = 5,
    NoSuchEnd = 6,
    NoSuchBus = 7,
    BusTwice = 8,
    BadRecord = 9,
    NotActive = 11,
    SmallEntry = 12,
    Singular = 13,
    BeyondAllowance = 18,
    GivenNotFinite = 19,
    ComputedNotFinite = 20,
}

impl Refusal {
    // The refusal's number.
    pub fn number(self) -> u32
        ensures { result ≡ spec.number self }
    {
        self as u32
    }
}

// The number of the refusal that a call answers, 0 where it answers a value.
pub fn number_of<T: Copy>(answer: Result<T, Refusal>) -> u32
    ensures { result ≡ spec.number_of answer }
{
    match answer {
        Ok(_) => 0,
        Err(refusal) => refusal.number(),
    }
}

// How many row reductions a call may begin: as many as it takes, or this many. No Option: None would not say which of the two it is.
#[derive(Clone, Copy)]
pub enum Allowance {
    Unlimited,
    Rows(usize),
}

// The allowance as a number of row reductions, the largest there is where it has no limit.
#[tactic(auto, unfolding(crate::specs::Work::allowed_rows))]
pub fn allowed_rows(allowance: Allowance) -> usize
    ensures { result ≡ work.allowed_rows allowance }
{
    match allowance {
        Allowance::Unlimited => usize::MAX,
        Allowance::Rows(allowed) => allowed,
    }
}
