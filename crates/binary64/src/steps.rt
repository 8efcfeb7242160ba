// The root in three steps, in the order in which it is checked against IEEE 754-2019, whose clauses are named: special operands, the whole
// root and its remainder, one rounding. What a step requires, those before it ensure.
ghost use Rattle.std.specs.Prelude.{◌≡◌, ◌*◌, ◌^◌, ◌≤◌, ◌<◌};
ghost use Rattle.binary64.specs.Root as spec;

use crate::digits::{long_root, parts, scaled};

// The root of a special operand (6.1, 6.2, 6.3, 7.2): of NaN and of a number below zero it is NaN; infinity and each zero are their own
// roots.
// None for an ordinary operand, which is finite and above zero.
pub fn special(x: f64) -> Option<f64>
    ensures { result ≡ spec.special x }
{
    if x < 0.0 {
        return Some(0.0 / 0.0);
    }
    if x > 0.0 && x < 1.0 / 0.0 {
        return None;
    }
    Some(x)
}

// A whole root q of 53 binary digits, its remainder r, and the scale, `half`: the number is (q * q + r) * 4^(half - 590).
#[derive(Clone, Copy)]
pub struct RootAndRest {
    pub q: u64,
    pub r: u64,
    pub half: u64,
}

// The whole root and its remainder, which stand for the exact root (5.1), of x moved without loss until the root has 53 binary digits.
pub fn whole_root(x: f64) -> RootAndRest
    requires { spec.special x ≡ None }
    ensures { spec.Rooted x result.q result.r result.half }
{
    let p = parts(x);
    let a = scaled(p.m, p.k);
    let w = long_root(a.m);
    RootAndRest {
        q: w.q,
        r: w.r,
        half: a.half,
    }
}

// One rounding (4.3.1): the whole number nearest the root of q * q + r, times 2^(half - 590). The exponent's field is half + 485, and the
// leading one of the 53 digits adds the last of it; a carry out of them, which no number's root has, would add another.
pub fn rounded(q: u64, r: u64, half: u64) -> f64
    requires { (2 ^ 52 ≤ q) × (q < 2 ^ 53) × (r ≤ 2 * q) × (half ≤ 1049) }
    ensures { result ≡ spec.rounded q r half }
{
    let up: u64 = if q < r { 1 } else { 0 };
    f64::from_bits((half + 484) * 0x10_0000_0000_0000 + (q + up))
}
