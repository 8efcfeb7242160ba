// Whether numbers are of ordinary size: then the rows of the layers above need no other test.
ghost use Rattle.std.specs.Prelude.{◌≡◌};
ghost use Rattle.complex.specs.Inner.Ordinary as spec;

// 2^200, which the parts of ordinary entries are below.
const ORDINARY_LIMIT: f64 = 1.6069380442589903e60;

// 2^-400, which an ordinary divisor's squared magnitude is not below.
pub const ORDINARY_SQUARE: f64 = 3.8725919148493183e-121;

// Whether x is below 2^200 in absolute value.
pub fn ordinary(x: f64) -> bool
    ensures { result ≡ spec.ordinary x }
{
    x < ORDINARY_LIMIT && x > -ORDINARY_LIMIT
}

// Whether all the numbers are below 2^200 in absolute value. The loop does not end early: so it takes several numbers at a time.
pub fn all_ordinary(s: &[f64]) -> bool
    ensures { result ≡ spec.all_ordinary s.now }
{
    let mut all = true;
    for x in s {
        all &= ordinary(*x);
    }
    all
}
