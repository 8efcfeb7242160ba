// What the whole root is found by: a number's digits, moved until their whole root has 53, and that root in two halves.
// Only `steps::whole_root` calls it; that step's promise, `Rooted`, says nothing of it.
ghost use Rattle.std.specs.Prelude.{◌+◌, ◌*◌, ◌^◌, ◌≤◌, ◌<◌, T};
ghost use Rattle.std.specs.Float.Ieee.Positive.{positive};
ghost use Rattle.binary64.specs.Root.{count};
ghost use Rattle.binary64.specs.Inner.RootDigits.{Digits, Scaled, WholeRoot};

// The number m * 2^k, in units of binary64's smallest positive value, 2^-1074.
#[derive(Clone, Copy)]
pub struct Units {
    pub m: u64,
    pub k: u64,
}

// The binary digits of a number that is finite and above zero.
pub fn parts(x: f64) -> Units
    requires { T (positive x) }
    ensures { Digits (count x) result.m result.k }
{
    let b = f64::to_bits(x);
    if b < 0x20_0000_0000_0000 {
        Units { m: b, k: 0 }
    } else {
        Units {
            m: b % 0x10_0000_0000_0000 + 0x10_0000_0000_0000,
            k: b / 0x10_0000_0000_0000 - 1,
        }
    }
}

// In the same units, the number m * 2^52 * 4^(half - 53): the whole root of its radicand, m * 2^52, has 53 binary digits.
#[derive(Clone, Copy)]
pub struct Radicand {
    pub m: u64,
    pub half: u64,
}

// m times 2^k moved by pairs of digits, without loss.
pub fn scaled(m: u64, k: u64) -> Radicand
    requires { (0 < m) × (m < 2 ^ 53) × (k ≤ 2045) }
    ensures { Scaled (m * 2 ^ k) result.m result.half }
{
    let z = u64::leading_zeros(m) as u64;
    let digits = 64 - z + k;
    Radicand {
        m: m << (z - 10 - digits % 2),
        half: (digits + 1) / 2,
    }
}

// A whole root q and its remainder r.
#[derive(Clone, Copy)]
pub struct Rest {
    pub q: u64,
    pub r: u64,
}

// Newton's step from y towards 2^32 over the root of x = h / 2^30, less 3 for the digits that are cut off, so that it ends below.
fn nearer(h: u64, y: u64) -> u64
    requires { (h < 2 ^ 32) × (y < 2 ^ 32) }
    ensures { result < 2 ^ 32 }
{
    let hy = h * y / 0x1_0000_0000;
    let yy = y * y / 0x1_0000_0000;
    (3 * y + 0xf_ffff_fffa - hy * yy / 0x4000_0000) / 2 % 0x1_0000_0000
}

// The whole root of an m of 53 or 54 digits, or one less, from h = m / 2^22. Two steps of Newton's start at
// 1.749 - 1.123 x + 0.458 x^2 - 0.0935 x^3 + 0.00743 x^4, which is 1 over the root of x = h / 2^30 within 0.22 %.
// Nothing is promised of how near it comes: `short_root` tests it, and only its time rests on it.
fn guess(h: u64) -> u64
    requires { h < 2 ^ 32 }
    ensures { result < 2 ^ 32 }
{
    let hh = h * h / 0x1_0000_0000;
    let high = 1967320785 - h * 401761978 / 0x4000_0000 + hh * 31913905 / 0x1000_0000;
    let y = (41871701899 + hh * high / 0x1000_0000 - h * 1205891116 / 0x1000_0000) % 0x1_0000_0000;
    h * nearer(h, nearer(h, y)) / 0x10_0000_0000
}

// From the guess upwards, or from 0 were it too high.
fn short_root(m: u64) -> Rest
    requires { m < 2 ^ 54 }
    ensures { WholeRoot m result.q result.r }
{
    let low = guess(m / 0x40_0000);
    let square = low * low;
    let mut q: u64 = 0;
    let mut r = m;
    if square <= m {
        q = low;
        r = m - square;
    }
    while r > 2 * q {
        r -= 2 * q + 1;
        q += 1;
    }
    Rest { q, r }
}

// 52 zeros more behind the radicand, and 26 more digits of its root: those of r times 2^26 over 2 s, or one less.
fn longer(s: u64, r: u64) -> Rest
    requires { (2 ^ 26 ≤ s) × (s < 2 ^ 27) × (r ≤ 2 * s) }
    ensures { WholeRoot ((s * s + r) * 2 ^ 52) result.q result.r }
{
    let digits = r * 0x400_0000 / (2 * s);
    let rest = r * 0x400_0000 % (2 * s) * 0x400_0000;
    let square = digits * digits;
    let q = s * 0x400_0000 + digits;
    if rest < square {
        let less = q - 1;
        return Rest {
            q: less,
            r: rest + (2 * less + 1) - square,
        };
    }
    Rest {
        q,
        r: rest - square,
    }
}

// The whole root of the radicand m * 2^52: 27 digits, then the other 26.
pub fn long_root(m: u64) -> Rest
    requires { (2 ^ 52 ≤ m) × (m < 2 ^ 54) }
    ensures { WholeRoot (m * 2 ^ 52) result.q result.r }
{
    let s = short_root(m);
    longer(s.q, s.r)
}
