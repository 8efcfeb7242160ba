// The DC parts.
pub use dc_flow::{build_b_bus, lodf_matrix, retained_buses};
pub use refusals::{Refusal, number_of};
