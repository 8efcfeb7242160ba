// The line outage factors, from the PTDF.
ghost use Rattle.std.specs.Prelude.{false, ◌≡◌, ◌<◌, ◌≤◌, ◌*◌, length};
ghost use Rattle.binary64.specs.Values.{all_finite};
ghost use Rattle.refusals.specs.Refusals as refusals;
ghost use Rattle.dc_flow.specs.Dc as spec;
ghost use Rattle.dc_flow.specs.Inner.Rows as rows;

use crate::branches::{Outages, Ptdf};
use binary64::finite::{all_finite, finite};
use complex::constants::SMALL_MAGNITUDE;
use complex::ordinary::all_ordinary;
use complex::raw::abs;
use refusals::{LIMIT, Refusal};

impl Ptdf<'_> {
    // 19 where a factor is not finite, 20 where a number computed from them is not. Where all given are below 2^200 in absolute value, all
    // computed are finite: one pass over the factors tells both.
    pub fn finite(self) -> Result<(), Refusal>
        ensures { result
            ≡ refusals.outcome (refusals.then_computed (refusals.then_given 0 self.entry.factors.now)
            (rows.numbers_of self.entry)) }
    {
        if all_ordinary(self.factors) {
            return Ok(());
        }
        if !all_finite(self.factors) {
            return Err(Refusal::GivenNotFinite);
        }
        if !self.outages_finite() {
            return Err(Refusal::ComputedNotFinite);
        }
        Ok(())
    }

    // The outage factors of all branches, row by row.
    pub fn outages(self, lodf: &mut [f64])
        requires { length lodf.old ≡ length self.branches.from.now * length self.branches.from.now }
        ensures { lodf.new
            ≡ spec.real_grid (rows.outage_of self.entry) (length self.entry.branches.from.now)
            (length self.entry.branches.from.now) }
    {
        let m = self.branches.from.len();
        // fixed memory, as no library crate takes any from the heap
        let mut room = [0.0; LIMIT];
        let ds = &mut room[..m];
        self.denominators(ds);
        // A lone branch takes no division.
        if m == 1 {
            lodf[0] = -1.0;
            return;
        }
        let outages = Outages {
            ptdf: self,
            denominators: ds,
        };
        outages.rows(lodf);
    }

    // Whether every number that the outage factors take is finite. A number that is not finite stays, but as a divisor: so the
    // denominators and the factors tell it. One branch alone takes none.
    fn outages_finite(self) -> bool
        ensures { result ≡ all_finite (rows.numbers_of self.entry) }
    {
        let m = self.branches.from.len();
        if m < 2 {
            return true;
        }
        // fixed memory, as no library crate takes any from the heap
        let mut room = [0.0; LIMIT];
        let ds = &mut room[..m];
        self.denominators(ds);
        if !all_finite(ds) {
            return false;
        }
        let outages = Outages {
            ptdf: self,
            denominators: ds,
        };
        outages.rows_finite()
    }

    // What each branch leaves of a transfer between its own ends.
    fn denominators(self, ds: &mut [f64])
        requires { length ds.old ≡ length self.branches.from.now }
        ensures { ds.new
            ≡ spec.real_row (rows.denominator_of self.entry) (length self.entry.branches.from.now) }
    {
        for (k, d) in ds.iter_mut().enumerate() {
            *d = 1.0 - self.transfer(k, k);
        }
    }

    // What branch l takes of a transfer between the ends of branch k.
    fn transfer(self, k: usize, l: usize) -> f64
        requires { (k < length self.branches.from.now)
            × (l < length self.branches.from.now) }
        ensures { result ≡ rows.transfer_of self.entry k l }
    {
        let row = l * self.branches.n;
        let from = row + self.branches.from[k];
        let to = row + self.branches.to[k];
        self.factors[from] - self.factors[to]
    }
}

impl Outages<'_> {
    // Row after row.
    fn rows(self, lodf: &mut [f64])
        requires { length lodf.old
            ≡ length self.ptdf.branches.from.now * length self.ptdf.branches.from.now }
        ensures { lodf.new
            ≡ spec.real_grid (rows.outage_of self.entry.ptdf) (length self.entry.ptdf.branches.from.now)
            (length self.entry.ptdf.branches.from.now) }
    {
        let m = self.ptdf.branches.from.len();
        for l in 0..m {
            let d = l * m;
            self.row(l, &mut lodf[d..d + m]);
        }
    }

    // Whether the factors of all rows are finite.
    fn rows_finite(self) -> bool
        ensures { result
            ≡ all_finite (spec.real_grid (rows.outage_of self.entry.ptdf) (length self.entry.ptdf.branches.from.now)
            (length self.entry.ptdf.branches.from.now)) }
    {
        for l in 0..self.ptdf.branches.from.len() {
            if !self.row_finite(l) {
                return false;
            }
        }
        true
    }

    // Whether the factors of row l are. One by one: a row written and looked at would divide its own entry too.
    fn row_finite(self, l: usize) -> bool
        requires { l < length self.ptdf.branches.from.now }
        ensures { result
            ≡ all_finite (spec.real_row (rows.outage_of self.entry.ptdf l) (length self.entry.ptdf.branches.from.now)) }
    {
        for k in 0..self.ptdf.branches.from.len() {
            if !finite(self.factor(l, k)) {
                return false;
            }
        }
        true
    }

    // The factor of branch l for the outage of branch k. Its own is -1, and takes no division.
    fn factor(self, l: usize, k: usize) -> f64
        requires { (l < length self.ptdf.branches.from.now)
            × (k < length self.ptdf.branches.from.now) }
        ensures { result ≡ rows.outage_of self.entry.ptdf l k }
    {
        if l == k {
            return -1.0;
        }
        self.quotient(l, k)
    }

    // Row l: as if each branch were another, then its own entry.
    fn row(self, l: usize, row: &mut [f64])
        requires { (l < length self.ptdf.branches.from.now)
            × (length row.old ≡ length self.ptdf.branches.from.now) }
        ensures { row.new
            ≡ spec.real_row (rows.outage_of self.entry.ptdf l) (length self.entry.ptdf.branches.from.now) }
    {
        self.quotients(l, row);
        row[l] = -1.0;
    }

    // The factors of branch l for the outages of others: two a turn, both before either is written, so that two divisions run at once.
    // One a turn, over the row's places, was tried: it takes a fifth longer.
    fn quotients(self, l: usize, row: &mut [f64])
        requires { (l < length self.ptdf.branches.from.now)
            × (length row.old ≡ length self.ptdf.branches.from.now) }
        ensures { row.new
            ≡ spec.real_row (rows.quotient_of self.entry.ptdf l) (length self.entry.ptdf.branches.from.now) }
    {
        let m = row.len();
        let pairs = m / 2;
        for pair in 0..pairs {
            let k = 2 * pair;
            let first = self.quotient(l, k);
            let second = self.quotient(l, k + 1);
            row[k] = first;
            row[k + 1] = second;
        }
        let k = 2 * pairs;
        if k < m {
            row[k] = self.quotient(l, k);
        }
    }

    // The factor of branch l for the outage of another, k: divided before the test, so that two divisions run at once.
    fn quotient(self, l: usize, k: usize) -> f64
        requires { (l < length self.ptdf.branches.from.now)
            × (k < length self.ptdf.branches.from.now) }
        ensures { result ≡ rows.quotient_of self.entry.ptdf l k }
    {
        let d = self.denominators[k];
        let q = self.ptdf.transfer(k, l) / d;
        if abs(d) < SMALL_MAGNITUDE { 0.0 } else { q }
    }
}
