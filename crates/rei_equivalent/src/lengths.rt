// What `compute` refuses, told from the lengths.
ghost use Rattle.std.specs.Prelude.{◌≡◌, ◌≤◌};
ghost use Rattle.refusals.specs.Refusals as refusals;
ghost use Rattle.rei_equivalent.specs.Rei as spec;

use lists::checks::over;
use refusals::Refusal;

// The lengths of what `compute` is given, beside the number of buses.
#[derive(Clone, Copy)]
pub struct Lengths {
    pub p: usize,
    pub q: usize,
    pub y: usize,
    pub spoke_buses: usize,
    pub spokes: usize,
    pub tie_buses: usize,
    pub ties: usize,
}

impl Lengths {
    // The refusal by the lengths; n is the number of buses.
    pub fn check(self, n: usize) -> Result<(), Refusal>
        ensures { result
            ≡ refusals.outcome (spec.rei_length_refusal n self.p self.q
            (spec.sized n self.y self.spoke_buses self.spokes self.tie_buses self.ties)) }
    {
        if over(n, self.p, self.q, 0) {
            return Err(Refusal::TooMany);
        }
        if !self.exact(n) {
            return Err(Refusal::WrongLength);
        }
        if self.p != n || self.q != n {
            return Err(Refusal::ListsDiffer);
        }
        if n == 0 {
            return Err(Refusal::NoBus);
        }
        Ok(())
    }

    // Whether the matrix and the output slices are of their exact lengths.
    fn exact(self, n: usize) -> bool
        requires { n ≤ refusals.limit }
        ensures { result ≡ spec.sized n self.y self.spoke_buses self.spokes self.tie_buses self.ties }
    {
        let square = n * n;
        self.y == 2 * square
            && self.spoke_buses == n
            && self.spokes == 2 * n
            && self.tie_buses == square - n
            && self.ties == square - n
    }
}
