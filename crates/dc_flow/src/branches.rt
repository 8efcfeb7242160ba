// The branches of a grid, and what they take of a transfer of power. Buses and branches count from 0.
ghost use Rattle.std.specs.Prelude.{◌≡◌, ◌≤◌, ◌*◌, length, T};
ghost use Rattle.lists.specs.Buses as buses;
ghost use Rattle.refusals.specs.Refusals as refusals;
ghost use Rattle.dc_flow.specs.Dc as spec;

// Branches by their two ends, of n buses.
#[derive(Clone, Copy)]
pub struct Branches<'a> {
    pub n: usize,
    pub from: &'a [usize],
    pub to: &'a [usize],
    ghost counts: { (n ≤ refusals.limit)
        × (length from.now ≤ refusals.limit)
        × (length to.now ≡ length from.now) },
    ghost ends: { (T (buses.all_below n from.now))
        × (T (buses.all_below n to.now)) },
}

// The power transfer distribution factors of branches: a row for each branch, a column for each bus.
#[derive(Clone, Copy)]
pub struct Ptdf<'a> {
    pub branches: Branches<'a>,
    pub factors: &'a [f64],
    ghost matrix: { length factors.now ≡ length branches.from.now * branches.n },
}

// The same, with what each branch leaves of a transfer between its own ends.
#[derive(Clone, Copy)]
pub struct Outages<'a> {
    pub ptdf: Ptdf<'a>,
    pub denominators: &'a [f64],
    ghost left: { denominators.now
        ≡ spec.real_row (spec.denominator ptdf.branches.n ptdf.factors.now ptdf.branches.from.now ptdf.branches.to.now)
        (length ptdf.branches.from.now) },
}
