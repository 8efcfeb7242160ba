// The root of a binary64 number, from its bits and whole numbers; `words` has a number as a 64-bit word, and back. For the layers above:
// callers of the library take `complex::magnitude::sqrt`, which answers a finite root or none.
#![tactic(auto)]

ghost use Rattle.std.specs.Prelude.{◌≡◌};
ghost use Rattle.binary64.specs.Root.{root, Root};

mod digits;
pub mod finite;
mod steps;
pub mod words;

// The binary64 nearest the exact root: special operands, then the whole root and its remainder, then one rounding.
pub fn sqrt(x: f64) -> f64
    ensures { (result ≡ root x) × Root x result }
{
    if let Some(special) = steps::special(x) {
        return special;
    }
    let w = steps::whole_root(x);
    steps::rounded(w.q, w.r, w.half)
}
