// Network equivalents, as callers use them: Kron reduction, Ward, REI, and the small DC parts. The work is done in a crate for
// each of them, below.
#![tactic(auto)]

pub mod dc;
pub mod kron;
pub mod rei;
pub mod ward;
