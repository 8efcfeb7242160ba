// Whether numbers are finite: neither an infinity nor a NaN.
ghost use Rattle.std.specs.Prelude.{◌≡◌};
ghost use Rattle.std.specs.Float.Ieee.Scale as scale;
ghost use Rattle.binary64.specs.Values.{all_finite};

// Whether x is finite. By comparisons: std's `is_finite` takes x from itself, which of an infinity raises the flag of an invalid
// operation.
pub fn finite(x: f64) -> bool
    ensures { result ≡ scale.finite x }
{
    x < 1.0 / 0.0 && x > -1.0 / 0.0
}

// Whether all the numbers are finite. The loop does not end early: so it takes several numbers at a time.
pub fn all_finite(s: &[f64]) -> bool
    ensures { result ≡ all_finite s.now }
{
    let mut all = true;
    for x in s {
        all &= finite(*x);
    }
    all
}
