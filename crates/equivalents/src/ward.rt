// Ward and extended Ward, with an allowance of row reductions.
pub use refusals::{Allowance, Refusal, number_of};
pub use ward_equivalent::answers::WardSummary;
pub use ward_equivalent::{compute, compute_extended};
