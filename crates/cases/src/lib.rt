// The two-bus book: its twelve cases in one table, and that the contracts' definitions give what the table says. It has no code:
// what is proved stands in specs/ and proofs/. tests/two_bus.c runs the same cases.
#![tactic(auto)]
