// The C-callable entries: the library's calls on the caller's numbers where they stand, a reducer's record as a byte slice; the refusal's
// number is returned, and single answers go by pointer. include/jeturipe.h declares them.
#![tactic(auto)]

mod answers;
pub mod dc;
pub mod kron;
pub mod linear;
pub mod numbers;
pub mod records;
pub mod rei;
pub mod scalars;
pub mod ward;
