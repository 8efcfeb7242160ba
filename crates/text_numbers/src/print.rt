// Printing: each function writes one text at an index of the output, and those that others call answer the next index.
// They are called where there is room for the text.
// Output and index go side by side: tried as a struct, but behind a second `&mut` its slice is lost, and reduce_text!print did not close.
ghost use Rattle.std.specs.Prelude.{◌≡◌, ◌∷◌, [], ◌+◌, ◌<◌, ◌≤◌, length};
ghost use Rattle.text_numbers.specs.Words.{glyph as glyphOf, digits, places as places_of, decimal, hex};
ghost use Rattle.text_numbers.specs.Inner.Writing.{HasRoom, Wrote, written};

fn glyph(d: u64) -> u8
    requires { d < 16 }
    ensures { result ≡ glyphOf d }
{
    if d < 10 {
        b'0' + d as u8
    } else {
        b'a' + (d as u8 - 10)
    }
}

// The last k digits of n in a base up to 16.
fn spell(out: &mut [u8], at: usize, base: u64, k: usize, n: u64)
    requires { (0 < base) × (base ≤ 16) × (at + k ≤ length out.old) }
    ensures { out.new ≡ written out.old at (digits base k n) }
{
    let mut rest = n;
    for i in (0..k).rev() {
        out[at + i] = glyph(rest % base);
        rest /= base;
    }
}

fn places(n: u64) -> usize
    ensures { (result ≡ places_of 20 n) × (result ≤ 20) }
{
    let mut rest = n;
    for k in 1..20 {
        if rest < 10 {
            return k;
        }
        rest /= 10;
    }
    20
}

// Writes n in decimal from place `at` on; the place behind it.
pub fn put_decimal(out: &mut [u8], at: usize, n: u64) -> usize
    requires { HasRoom out.old at (decimal n) }
    ensures { Wrote out.old at (decimal n) result out.new }
{
    let k = places(n);
    spell(out, at, 10, k, n);
    at + k
}

// Writes n as 16 hexadecimal digits from place `at` on; the place behind them.
pub fn put_hex(out: &mut [u8], at: usize, n: u64) -> usize
    requires { HasRoom out.old at (hex n) }
    ensures { Wrote out.old at (hex n) result out.new }
{
    spell(out, at, 16, 16, n);
    at + 16
}

// Writes one byte to place `at`; the place behind it.
pub fn put_byte(out: &mut [u8], at: usize, b: u8) -> usize
    requires { HasRoom out.old at (b ∷ []) }
    ensures { Wrote out.old at (b ∷ []) result out.new }
{
    out[at] = b;
    at + 1
}

// Writes a text from place `at` on; the place behind it.
pub fn put(out: &mut [u8], at: usize, text: &[u8]) -> usize
    requires { HasRoom out.old at text.now }
    ensures { Wrote out.old at text.now result out.new }
{
    let next = at + text.len();
    out[at..next].copy_from_slice(text);
    next
}
