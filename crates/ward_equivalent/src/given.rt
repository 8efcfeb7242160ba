// Whether the numbers that a study is given are finite: told last of its input, with 19.
ghost use Rattle.std.specs.Prelude.{◌≡◌, ◌∷◌, ◌++◌};
ghost use Rattle.binary64.specs.Values.{all_finite};

use binary64::finite::{all_finite, finite};

// The matrix, also for buses in no list, the base and the injections.
#[tactic(auto, using(crate::proofs::Tells::given_is))]
pub fn given_finite(y: &[f64], base: f64, p: &[f64], q: &[f64]) -> bool
    ensures { result ≡ all_finite (y.now ++ (base ∷ (p.now ++ q.now))) }
{
    all_finite(y) && finite(base) && all_finite(p) && all_finite(q)
}

// The voltages too.
#[tactic(auto, using(crate::proofs::Tells::both_finite))]
pub fn extended_finite(y: &[f64], base: f64, p: &[f64], q: &[f64], voltages: &[f64]) -> bool
    ensures { result ≡ all_finite (y.now ++ (base ∷ (p.now ++ q.now)) ++ voltages.now) }
{
    given_finite(y, base, p, q) && all_finite(voltages)
}
