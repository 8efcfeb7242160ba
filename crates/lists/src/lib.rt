// Lists of buses and branch ends: the tests that the equivalents share.
#![tactic(auto)]

pub mod checks;
pub mod copies;
pub mod numbers;
