// Lines of a text, and the forms of a line.
ghost use Rattle.std.specs.Prelude.{◌≡◌, ◌==◌, position};
ghost use Rattle.text_numbers.specs.Bytes.{line_feed};
ghost use Rattle.reduce_text.specs.Lines as spec;

use binary64::finite::finite;
use binary64::words::of_word;
use text_numbers::{decimal, hexadecimal};

// How many bytes the line of an entry has, and where the space between its words stands.
pub const ENTRY: usize = 33;

const MIDDLE: usize = 16;

// The line that starts at `at`, without its line feed; of no byte where the text ends before it.
pub fn line_at(text: &[u8], at: usize) -> &[u8]
    ensures { result.now ≡ spec.line_at text.now at }
{
    let rest = &text[at.min(text.len())..];
    &rest[..first_feed(rest).unwrap_or(rest.len())]
}

// Where the first line feed stands.
fn first_feed(text: &[u8]) -> Option<usize>
    ensures { result ≡ position (λ b. b == line_feed) text.now }
{
    text.iter().position(|b| *b == b'\n')
}

// The number behind a keyword and its space, or none.
pub fn number_after(key: &[u8], line: &[u8]) -> Option<u64>
    ensures { result ≡ spec.number_after key.now line.now }
{
    decimal(line.strip_prefix(key)?)
}

// The bits of the real and of the imaginary part that a line gives in two words of 16 hexadecimal digits, each a finite number's, or none.
pub fn entry_line(line: &[u8]) -> Option<(u64, u64)>
    ensures { result ≡ spec.entry_of line.now }
{
    if line.len() != ENTRY || line[MIDDLE] != b' ' {
        return None;
    }
    let re = hexadecimal(&line[..MIDDLE])?;
    let im = hexadecimal(&line[MIDDLE + 1..])?;
    if finite(of_word(re)) && finite(of_word(im)) {
        Some((re, im))
    } else {
        None
    }
}
