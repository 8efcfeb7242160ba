// The DC parts: the buses retained, the susceptance matrix, and the line outage factors.
// Buses and branches count from 0; matrices are of f64, row after row.
#![tactic(auto)]

ghost use Rattle.std.specs.Prelude.{◌≡◌, length};
ghost use Rattle.refusals.specs.Refusals as refusals;
ghost use Rattle.dc_flow.specs.Dc as spec;

use crate::refusal::{branches_to_build, ptdf_of};
use crate::retaining::{keep, mark};
use crate::susceptance::add_branches;
use binary64::finite::all_finite;
use complex::slices::clear;
use lists::checks::over;
use refusals::{LIMIT, Refusal};

mod branches;
mod outage;
mod refusal;
mod retaining;
mod susceptance;

// The buses below n that `interior` does not name, rising, with 0 behind them; answers how many. Buses count from 0.
pub fn retained_buses(
    n: usize,
    interior: &[usize],
    retained: &mut [usize],
) -> Result<usize, Refusal>
    ensures answer { result ≡ spec.retained_answer n interior.now retained.old }
    ensures output { retained.new ≡ spec.retained_output n interior.now retained.old }
{
    if over(n, interior.len(), 0, 0) {
        return Err(Refusal::TooMany);
    }
    if retained.len() != n {
        return Err(Refusal::WrongLength);
    }
    retained.fill(0);
    // fixed memory, as no library crate takes any from the heap
    let mut marks = [0; LIMIT];
    mark(interior, &mut marks);
    Ok(keep(n, interior, &marks, retained))
}

// The n x n matrix of the branches' susceptances, from their reactances, both in per unit. Buses count from 0.
pub fn build_b_bus(
    n: usize,
    branch_from: &[usize],
    branch_to: &[usize],
    branch_x: &[f64],
    b: &mut [f64],
) -> Result<(), Refusal>
    ensures answer { result ≡ refusals.outcome
        (spec.build_refusal n branch_from.now branch_to.now branch_x.now (length b.old)) }
    ensures output { b.new
        ≡ spec.built_output n branch_from.now branch_to.now branch_x.now b.old }
{
    let branches = branches_to_build(n, branch_from, branch_to, branch_x, b.len())?;
    if !all_finite(branch_x) {
        return Err(Refusal::GivenNotFinite);
    }
    clear(b);
    add_branches(branches, branch_x, b);
    Ok(())
}

// Row l, column k: the factor of branch l for the outage of branch k, a share of the flow of k. The PTDF has a row for each branch and
// a column for each bus; buses and branches count from 0.
pub fn lodf_matrix(
    n: usize,
    ptdf: &[f64],
    branch_from: &[usize],
    branch_to: &[usize],
    lodf: &mut [f64],
) -> Result<(), Refusal>
    ensures answer { result ≡ refusals.outcome
        (spec.lodf_refusal n ptdf.now branch_from.now branch_to.now (length lodf.old)) }
    ensures output { lodf.new ≡ spec.lodf_output n ptdf.now branch_from.now branch_to.now lodf.old }
{
    let factors = ptdf_of(n, ptdf, branch_from, branch_to, lodf.len())?;
    factors.finite()?;
    factors.outages(lodf);
    Ok(())
}
