// The susceptance matrix, branch after branch; reactances and susceptances in per unit.
ghost use Rattle.std.specs.Prelude.{◌≡◌, ◌<◌, ◌*◌, ◌+◌, length};
ghost use Rattle.complex.specs.Matrices as matrices;
ghost use Rattle.dc_flow.specs.Dc as spec;

use crate::branches::Branches;
use complex::constants::SMALL_MAGNITUDE;
use complex::raw::abs;

// The susceptances of all branches, from their reactances xs, added to a matrix of +0.
pub fn add_branches(branches: Branches, xs: &[f64], b: &mut [f64])
    requires cleared { b.old ≡ matrices.zeros (branches.n * branches.n) }
    requires counts { length xs.now ≡ length branches.from.now }
    ensures { b.new
        ≡ spec.susceptances branches.entry.n branches.entry.from.now branches.entry.to.now xs.now
        (length branches.entry.from.now) }
{
    for (k, x) in xs.iter().enumerate() {
        add_branch(branches.n, b, branches.from[k], branches.to[k], *x);
    }
}

// The susceptance of one branch of reactance x, in per unit, at its ends; none where x is close to 0.
fn add_branch(n: usize, b: &mut [f64], from: usize, to: usize, x: f64)
    requires ends { (from < n)
        × (to < n) }
    requires matrix { length b.old ≡ n * n }
    ensures { b.new ≡ spec.add_branch n b.old from to x }
{
    if !(abs(x) < SMALL_MAGNITUDE) {
        join(b, from * n, to * n, from, to, 1.0 / x);
    }
}

// The susceptance s at a branch's two ends, whose rows begin at f and t.
fn join(b: &mut [f64], f: usize, t: usize, from: usize, to: usize, s: f64)
    requires diagonal { (f + from < length b.old)
        × (t + to < length b.old) }
    requires off_diagonal { (f + to < length b.old)
        × (t + from < length b.old) }
    ensures { b.new ≡ spec.joined b.old f t from to s }
{
    b[f + from] += s;
    b[t + to] += s;
    b[f + to] -= s;
    b[t + from] -= s;
}
