// What the DC calls refuse by lengths and branch ends.
ghost use Rattle.std.specs.Prelude.{◌≡◌, ◌≤◌, length};
ghost use Rattle.refusals.specs.Refusals as refusals;
ghost use Rattle.dc_flow.specs.Dc as spec;
ghost use Rattle.dc_flow.specs.Inner.Rows as rows;

use crate::branches::{Branches, Ptdf};
use lists::checks::{all_below, over};
use refusals::Refusal;

// The branches of `build_b_bus`; `len` is the length of its output slice.
pub fn branches_to_build<'a>(
    n: usize,
    from: &'a [usize],
    to: &'a [usize],
    xs: &[f64],
    len: usize,
) -> Result<Branches<'a>, Refusal>
    ensures { rows.BranchesOf n from.now to.now
        (spec.build_shape_refusal n from.now to.now xs.now len) result }
{
    let m = from.len();
    if over(n, m, to.len(), xs.len()) {
        return Err(Refusal::TooMany);
    }
    if len != n * n {
        return Err(Refusal::WrongLength);
    }
    if to.len() != m || xs.len() != m {
        return Err(Refusal::ListsDiffer);
    }
    branches_between(n, from, to)
}

// The PTDF of `lodf_matrix`; `len` is the length of its output slice.
pub fn ptdf_of<'a>(
    n: usize,
    factors: &'a [f64],
    from: &'a [usize],
    to: &'a [usize],
    len: usize,
) -> Result<Ptdf<'a>, Refusal>
    ensures { rows.PtdfOf n factors.now from.now to.now
        (spec.lodf_shape_refusal n (length factors.now) from.now to.now len) result }
{
    let m = from.len();
    if over(n, m, to.len(), 0) {
        return Err(Refusal::TooMany);
    }
    if factors.len() != m * n || len != m * m {
        return Err(Refusal::WrongLength);
    }
    if to.len() != m {
        return Err(Refusal::ListsDiffer);
    }
    Ok(Ptdf {
        branches: branches_between(n, from, to)?,
        factors: factors,
    })
}

// Branches whose ends are buses: 6 where one is none, also of a branch that would be skipped.
fn branches_between<'a>(
    n: usize,
    from: &'a [usize],
    to: &'a [usize],
) -> Result<Branches<'a>, Refusal>
    requires { (n ≤ refusals.limit)
        × (length from.now ≤ refusals.limit)
        × (length to.now ≡ length from.now) }
    ensures { rows.BranchesOf n from.now to.now (spec.ends_refusal n from.now to.now) result }
{
    if !all_below(n, from) || !all_below(n, to) {
        return Err(Refusal::NoSuchEnd);
    }
    Ok(Branches {
        n: n,
        from: from,
        to: to,
    })
}
