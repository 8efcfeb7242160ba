// No code: the names that most proofs use (proofs/Prelude.antt).
#![tactic(auto)]
