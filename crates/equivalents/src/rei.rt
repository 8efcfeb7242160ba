// The REI equivalent.
pub use refusals::{Refusal, number_of};
pub use rei_equivalent::{ReiEquivalent, compute};
