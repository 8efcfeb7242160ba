// Words: decimal numbers and hexadecimal words, read here and written in `print`.
#![tactic(auto)]

ghost use Rattle.std.specs.Prelude.{◌≡◌};
ghost use Rattle.text_numbers.specs.Words as spec;

pub mod print;

// Decimal numbers that are read are below this, 2^32.
const LIMIT: u64 = 0x1_0000_0000;

// A word of no digit, or with a 0 before other digits.
pub fn spare(word: &[u8]) -> bool
    ensures { result ≡ spec.spare word.now }
{
    word.is_empty() || word.len() > 1 && word[0] == b'0'
}

// The number that a decimal word without spare zeros gives, below 2^32, or none.
pub fn decimal(word: &[u8]) -> Option<u64>
    ensures { result ≡ spec.decimal_of word.now }
{
    if spare(word) {
        return None;
    }
    let mut v = 0;
    for b in word {
        v = 10 * v + u64::from(char::from(*b).to_digit(10)?);
        if v >= LIMIT {
            return None;
        }
    }
    Some(v)
}

// The number that a word of 16 hexadecimal digits gives, or none.
pub fn hexadecimal(word: &[u8]) -> Option<u64>
    ensures { result ≡ spec.hex_of word.now }
{
    if word.len() != 16 {
        return None;
    }
    let mut v = 0;
    for b in word {
        v = 16 * v + u64::from(char::from(*b).to_digit(16)?);
    }
    Some(v)
}
