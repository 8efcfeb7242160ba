// Bytes to numbers and back, little-endian: 8 bytes a number, 4 a bus number. Any NaN pattern is read; 7ff8000000000000 is written.
// A length that does not fit is 2, and nothing is written.
ghost use Rattle.std.specs.Prelude.{◌≡◌, length, map};
ghost use Rattle.number_bytes.specs.Bytes as in_bytes;
ghost use Rattle.refusals.specs.Refusals as refusals;
ghost use Rattle.entries.specs.Answers.{answer_after};
ghost use Rattle.entries.specs.Numbers as spec;

use number_bytes::{Stored, read, write};
use refusals::{Refusal, number_of};

// Whether so many bytes are those of so many numbers, `per` bytes each.
fn fits(per: usize, bytes: usize, count: usize) -> Result<(), Refusal>
    ensures { result ≡ refusals.outcome (spec.misfit per bytes count) }
{
    if per.checked_mul(count) != Some(bytes) {
        return Err(Refusal::WrongLength);
    }
    Ok(())
}

// The numbers of the bytes.
fn numbers_of<T: Stored>(bytes: &[u8], numbers: &mut [T]) -> Result<(), Refusal>
    ensures answer { result ≡ refusals.outcome (spec.misfit T.SIZE (length bytes.now) (length numbers.old)) }
    ensures output { numbers.new
        ≡ answer_after (spec.misfit T.SIZE (length bytes.now) (length numbers.old))
        (map T.of_whole (in_bytes.words T.SIZE (length numbers.old) bytes.now)) numbers.old }
{
    fits(T::SIZE, bytes.len(), numbers.len())?;
    read(bytes, numbers);
    Ok(())
}

// The bytes of the numbers.
fn bytes_of<T: Stored>(numbers: &[T], bytes: &mut [u8]) -> Result<(), Refusal>
    ensures answer { result ≡ refusals.outcome (spec.misfit T.SIZE (length bytes.old) (length numbers.now)) }
    ensures output { bytes.new
        ≡ answer_after (spec.misfit T.SIZE (length bytes.old) (length numbers.now))
        (in_bytes.of_words T.SIZE (map T.to_whole numbers.now)) bytes.old }
{
    fits(T::SIZE, bytes.len(), numbers.len())?;
    write(bytes, numbers);
    Ok(())
}

// The numbers of binary64 of the bytes, of whatever units.
#[unsafe(no_mangle)]
pub extern "C" fn jeturipe_numbers_of_bytes(bytes: &[u8], numbers: &mut [f64]) -> u32
    ensures { (result ≡ spec.misfit 8 (length bytes.now) (length numbers.old))
        × (numbers.new
        ≡ answer_after result (in_bytes.floats (length numbers.old) bytes.now) numbers.old) }
{
    number_of(numbers_of(bytes, numbers))
}

// The bytes of numbers of binary64.
#[unsafe(no_mangle)]
pub extern "C" fn jeturipe_bytes_of_numbers(numbers: &[f64], bytes: &mut [u8]) -> u32
    ensures { (result ≡ spec.misfit 8 (length bytes.old) (length numbers.now))
        × (bytes.new
        ≡ answer_after result (in_bytes.of_floats numbers.now) bytes.old) }
{
    number_of(bytes_of(numbers, bytes))
}

// The whole numbers of the bytes: sizes, rows.
#[unsafe(no_mangle)]
pub extern "C" fn jeturipe_words_of_bytes(bytes: &[u8], words: &mut [usize]) -> u32
    ensures { (result ≡ spec.misfit 8 (length bytes.now) (length words.old))
        × (words.new
        ≡ answer_after result (in_bytes.words 8 (length words.old) bytes.now) words.old) }
{
    number_of(numbers_of(bytes, words))
}

// The bytes of whole numbers.
#[unsafe(no_mangle)]
pub extern "C" fn jeturipe_bytes_of_words(words: &[usize], bytes: &mut [u8]) -> u32
    ensures { (result ≡ spec.misfit 8 (length bytes.old) (length words.now))
        × (bytes.new
        ≡ answer_after result (in_bytes.of_words 8 words.now) bytes.old) }
{
    number_of(bytes_of(words, bytes))
}

// The bus numbers of the bytes.
#[unsafe(no_mangle)]
pub extern "C" fn jeturipe_bus_numbers_of_bytes(bytes: &[u8], numbers: &mut [u32]) -> u32
    ensures { (result ≡ spec.misfit 4 (length bytes.now) (length numbers.old))
        × (numbers.new
        ≡ answer_after result (in_bytes.words 4 (length numbers.old) bytes.now) numbers.old) }
{
    number_of(numbers_of(bytes, numbers))
}

// The bytes of bus numbers.
#[unsafe(no_mangle)]
pub extern "C" fn jeturipe_bytes_of_bus_numbers(numbers: &[u32], bytes: &mut [u8]) -> u32
    ensures { (result ≡ spec.misfit 4 (length bytes.old) (length numbers.now))
        × (bytes.new
        ≡ answer_after result (in_bytes.of_words 4 numbers.now) bytes.old) }
{
    number_of(bytes_of(numbers, bytes))
}
