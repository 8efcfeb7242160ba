// The lists of buses put together, and sums of injections.
ghost use Rattle.std.specs.Prelude.{◌≡◌, ◌++◌, ◌+◌, length};
ghost use Rattle.rei_equivalent.specs.Rei as spec;

use lists::copies::copy;

// The sum of the numbers, from +0 upward.
pub fn sum(xs: &[f64]) -> f64
    ensures { result ≡ spec.total xs.now }
{
    let mut sum = 0.0;
    for x in xs {
        sum += *x;
    }
    sum
}

// The first list and then the second.
pub fn join_lists(first: &[usize], second: &[usize], out: &mut [usize])
    requires { length out.old ≡ length first.now + length second.now }
    ensures { out.new ≡ first.now ++ second.now }
{
    let k = first.len();
    copy(first, &mut out[..k]);
    copy(second, &mut out[k..]);
}
