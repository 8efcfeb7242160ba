// An f64 as a 64-bit word, and back. Every NaN pattern reads as a NaN, and a NaN is written as 7ff8000000000000. No From: both types are
// the language's own.
ghost use Rattle.std.specs.Prelude.{◌≡◌};
ghost use Rattle.std.specs.Float.{binary64};
ghost use Rattle.std.specs.Float.Ieee.{of_bits, to_bits};

// The number with these bits; a NaN for every pattern of one.
pub fn of_word(w: u64) -> f64
    ensures { result ≡ of_bits binary64 w }
{
    if w % 0x8000_0000_0000_0000 > 0x7ff0_0000_0000_0000 {
        return 0.0 / 0.0;
    }
    f64::from_bits(w)
}

// The bits of a number; of a NaN 7ff8000000000000.
pub fn to_word(x: f64) -> u64
    ensures { result ≡ to_bits binary64 x }
{
    if x != x {
        return 0x7ff8_0000_0000_0000;
    }
    f64::to_bits(x)
}
