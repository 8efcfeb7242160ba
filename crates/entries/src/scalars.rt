// Single complex and real numbers, of the caller's units. Answers go by pointers, which are left as they are where the call is refused:
// with 19 where a number given is not finite, with 20 where one computed is not.
ghost use Rattle.std.specs.Prelude.{◌≡◌, cond, [], ◌∷◌, ◌++◌};
ghost use Rattle.binary64.specs.Root.{root};
ghost use Rattle.binary64.specs.Values.{all_finite};
ghost use Rattle.complex.specs.Arithmetic as arithmetic;
ghost use Rattle.complex.specs.Arithmetic.{complex_of};
ghost use Rattle.complex.specs.Computed as computed;
ghost use Rattle.complex.specs.Computed.{of_parts};
ghost use Rattle.complex.specs.Leaves as leaves;
ghost use Rattle.complex.specs.Leaves.{of_magnitude};
ghost use Rattle.complex.specs.Magnitude as magnitudes;
ghost use Rattle.refusals.specs.Refusals as refusals;
ghost use Rattle.entries.specs.Answers.{answer_after};
ghost use Rattle.entries.specs.Singles as spec;

use binary64::finite::finite;
use complex::{Complex, both_finite};
use refusals::Refusal;

// Whether all four parts are finite.
fn pairs_finite(a: Complex, b: Complex) -> bool
    ensures { result ≡ all_finite (of_parts a ++ of_parts b) }
{
    both_finite(a) && both_finite(b)
}

// The refusal of an operation that answers no finite number, by whether all given are finite.
fn none_finite(given: bool) -> Refusal
    ensures { refusals.number result ≡ cond given refusals.computed_not_finite refusals.given_not_finite }
{
    if given {
        Refusal::ComputedNotFinite
    } else {
        Refusal::GivenNotFinite
    }
}

// A complex answer, and its number. The C interface takes it by two pointers and a real one by one, so there are two functions.
fn give_pair(answer: Option<Complex>, given: bool, re: &mut f64, im: &mut f64) -> u32
    ensures { (result ≡ leaves.pair_number given answer)
        × (complex_of re.new im.new ≡ spec.pair_after answer (complex_of re.old im.old)) }
{
    let Some(z) = answer else {
        return none_finite(given).number();
    };
    *re = z.re;
    *im = z.im;
    0
}

// A real answer, and its number.
fn give_real(answer: Option<f64>, given: bool, value: &mut f64) -> u32
    ensures { (result ≡ leaves.real_number given answer) × (value.new ≡ spec.real_after answer value.old) }
{
    let Some(x) = answer else {
        return none_finite(given).number();
    };
    *value = x;
    0
}

// a + b.
#[unsafe(no_mangle)]
pub extern "C" fn jeturipe_cadd(
    a_re: f64,
    a_im: f64,
    b_re: f64,
    b_im: f64,
    re: &mut f64,
    im: &mut f64,
) -> u32
    ensures { (result ≡ leaves.single_refusal
        (of_parts (complex_of a_re a_im) ++ of_parts (complex_of b_re b_im))
        (computed.of_sum (complex_of a_re a_im) (complex_of b_re b_im)))
        × (complex_of re.new im.new
        ≡ answer_after result (arithmetic.cadd (complex_of a_re a_im) (complex_of b_re b_im))
        (complex_of re.old im.old)) }
{
    let a = Complex { re: a_re, im: a_im };
    let b = Complex { re: b_re, im: b_im };
    give_pair(complex::cadd(a, b), pairs_finite(a, b), re, im)
}

// a - b.
#[unsafe(no_mangle)]
pub extern "C" fn jeturipe_csub(
    a_re: f64,
    a_im: f64,
    b_re: f64,
    b_im: f64,
    re: &mut f64,
    im: &mut f64,
) -> u32
    ensures { (result ≡ leaves.single_refusal
        (of_parts (complex_of a_re a_im) ++ of_parts (complex_of b_re b_im))
        (computed.of_difference (complex_of a_re a_im) (complex_of b_re b_im)))
        × (complex_of re.new im.new
        ≡ answer_after result (arithmetic.csub (complex_of a_re a_im) (complex_of b_re b_im))
        (complex_of re.old im.old)) }
{
    let a = Complex { re: a_re, im: a_im };
    let b = Complex { re: b_re, im: b_im };
    give_pair(complex::csub(a, b), pairs_finite(a, b), re, im)
}

// a b.
#[unsafe(no_mangle)]
pub extern "C" fn jeturipe_cmul(
    a_re: f64,
    a_im: f64,
    b_re: f64,
    b_im: f64,
    re: &mut f64,
    im: &mut f64,
) -> u32
    ensures { (result ≡ leaves.single_refusal
        (of_parts (complex_of a_re a_im) ++ of_parts (complex_of b_re b_im))
        (computed.of_product (complex_of a_re a_im) (complex_of b_re b_im)))
        × (complex_of re.new im.new
        ≡ answer_after result (arithmetic.cmul (complex_of a_re a_im) (complex_of b_re b_im))
        (complex_of re.old im.old)) }
{
    let a = Complex { re: a_re, im: a_im };
    let b = Complex { re: b_re, im: b_im };
    give_pair(complex::cmul(a, b), pairs_finite(a, b), re, im)
}

// a / b; refused with 20 where the squared magnitude of b is below 1e-300.
#[unsafe(no_mangle)]
pub extern "C" fn jeturipe_cdiv(
    a_re: f64,
    a_im: f64,
    b_re: f64,
    b_im: f64,
    re: &mut f64,
    im: &mut f64,
) -> u32
    ensures { (result ≡ leaves.single_refusal
        (of_parts (complex_of a_re a_im) ++ of_parts (complex_of b_re b_im))
        (computed.of_quotient (complex_of a_re a_im) (complex_of b_re b_im)))
        × (complex_of re.new im.new
        ≡ answer_after result (arithmetic.cdiv (complex_of a_re a_im) (complex_of b_re b_im))
        (complex_of re.old im.old)) }
{
    let a = Complex { re: a_re, im: a_im };
    let b = Complex { re: b_re, im: b_im };
    give_pair(complex::cdiv(a, b), pairs_finite(a, b), re, im)
}

// -a.
#[unsafe(no_mangle)]
pub extern "C" fn jeturipe_cneg(a_re: f64, a_im: f64, re: &mut f64, im: &mut f64) -> u32
    ensures { (result ≡ leaves.single_refusal (of_parts (complex_of a_re a_im)) (of_parts (complex_of a_re a_im)))
        × (complex_of re.new im.new
        ≡ answer_after result (arithmetic.cneg (complex_of a_re a_im)) (complex_of re.old im.old)) }
{
    let a = Complex { re: a_re, im: a_im };
    give_pair(complex::cneg(a), both_finite(a), re, im)
}

// 1 / a, as `jeturipe_cdiv` has it.
#[unsafe(no_mangle)]
pub extern "C" fn jeturipe_complex_inv(a_re: f64, a_im: f64, re: &mut f64, im: &mut f64) -> u32
    ensures { (result ≡ leaves.single_refusal (of_parts (complex_of a_re a_im))
        (computed.of_quotient arithmetic.unit (complex_of a_re a_im)))
        × (complex_of re.new im.new
        ≡ answer_after result (arithmetic.complex_inv (complex_of a_re a_im)) (complex_of re.old im.old)) }
{
    let a = Complex { re: a_re, im: a_im };
    give_pair(complex::complex_inv(a), both_finite(a), re, im)
}

// The absolute value of x.
#[unsafe(no_mangle)]
pub extern "C" fn jeturipe_abs(x: f64, value: &mut f64) -> u32
    ensures { (result ≡ leaves.single_refusal (x ∷ []) (x ∷ []))
        × (value.new ≡ answer_after result (magnitudes.abs x) value.old) }
{
    give_real(complex::magnitude::abs(x), finite(x), value)
}

// The square root of x, correctly rounded; refused with 20 where x is below 0.
#[unsafe(no_mangle)]
pub extern "C" fn jeturipe_sqrt(x: f64, value: &mut f64) -> u32
    ensures { (result ≡ leaves.single_refusal (x ∷ []) (root x ∷ []))
        × (value.new ≡ answer_after result (root x) value.old) }
{
    give_real(complex::magnitude::sqrt(x), finite(x), value)
}

// The magnitude of a complex number: the root of re re + im im, each step rounded.
#[unsafe(no_mangle)]
pub extern "C" fn jeturipe_magnitude(re: f64, im: f64, value: &mut f64) -> u32
    ensures { (result ≡ leaves.single_refusal (of_parts (complex_of re im)) (of_magnitude (complex_of re im)))
        × (value.new ≡ answer_after result (magnitudes.magnitude (complex_of re im)) value.old) }
{
    let c = Complex { re: re, im: im };
    give_real(complex::magnitude::magnitude(c), both_finite(c), value)
}
