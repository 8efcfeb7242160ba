// Numbers in a byte slice, the lowest byte first: whole numbers of 4 and of 8 bytes, and numbers of binary64 by the words of their bits.
#![tactic(auto)]

ghost use Rattle.std.specs.Prelude.{◌≡◌, ℕ, ◌+◌, ◌*◌, ◌≤◌, length, map};
ghost use Rattle.std.specs.Float.{binary64};
ghost use Rattle.std.specs.Float.Ieee.{of_bits, to_bits};
ghost use Rattle.number_bytes.specs.Bytes as spec;

use binary64::words::{of_word, to_word};

// A number that is kept in SIZE bytes, as a whole number.
pub trait Stored: Copy {
    const SIZE: usize;

    ghost SIZE: { ℕ };

    // What the whole number w stands for, and the whole number that stands for x.
    ghost of_whole: { ℕ → Self };

    ghost to_whole: { Self → ℕ };

    // The number of the bytes from place a on.
    fn at(s: &[u8], a: usize) -> Self
        requires { a + SIZE ≤ length s.now }
        ensures { result ≡ of_whole (spec.word SIZE s.now a) };

    // Writes the number in the bytes from place a on.
    fn put(self, s: &mut [u8], a: usize)
        requires { a + SIZE ≤ length s.old }
        ensures { s.new ≡ spec.put_word SIZE s.old a (to_whole self) };
}

impl Stored for u32 {
    const SIZE: usize = 4;

    ghost SIZE = { 4 };

    ghost of_whole = { λ w. w };

    ghost to_whole = { λ x. x };

    fn at(s: &[u8], a: usize) -> u32 {
        u32::from_le_bytes(s[a..a + 4].try_into().unwrap())
    }

    fn put(self, s: &mut [u8], a: usize) {
        s[a..a + 4].copy_from_slice(&self.to_le_bytes());
    }
}

impl Stored for u64 {
    const SIZE: usize = 8;

    ghost SIZE = { 8 };

    ghost of_whole = { λ w. w };

    ghost to_whole = { λ x. x };

    fn at(s: &[u8], a: usize) -> u64 {
        u64::from_le_bytes(s[a..a + 8].try_into().unwrap())
    }

    fn put(self, s: &mut [u8], a: usize) {
        s[a..a + 8].copy_from_slice(&self.to_le_bytes());
    }
}

impl Stored for usize {
    const SIZE: usize = 8;

    ghost SIZE = { 8 };

    ghost of_whole = { λ w. w };

    ghost to_whole = { λ x. x };

    fn at(s: &[u8], a: usize) -> usize {
        u64::at(s, a) as usize
    }

    fn put(self, s: &mut [u8], a: usize) {
        (self as u64).put(s, a);
    }
}

// By the 64 bits; every pattern of a NaN is the one NaN.
impl Stored for f64 {
    const SIZE: usize = 8;

    ghost SIZE = { 8 };

    ghost of_whole = { of_bits binary64 };

    ghost to_whole = { to_bits binary64 };

    fn at(s: &[u8], a: usize) -> f64 {
        of_word(u64::at(s, a))
    }

    fn put(self, s: &mut [u8], a: usize) {
        to_word(self).put(s, a);
    }
}

// Reads numbers, one after the other.
pub fn read<T: Stored>(s: &[u8], out: &mut [T])
    requires { length s.now ≡ T.SIZE * length out.old }
    ensures { out.new ≡ map T.of_whole (spec.words T.SIZE (length out.old) s.now) }
{
    for (i, x) in out.iter_mut().enumerate() {
        *x = T::at(s, T::SIZE * i);
    }
}

// Writes numbers, one after the other.
pub fn write<T: Stored>(s: &mut [u8], xs: &[T])
    requires { length s.old ≡ T.SIZE * length xs.now }
    ensures { s.new ≡ spec.of_words T.SIZE (map T.to_whole xs.now) }
{
    for (i, x) in xs.iter().enumerate() {
        x.put(s, T::SIZE * i);
    }
}
