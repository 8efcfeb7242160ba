// Demand 3 of Ward's study: what it leaves as it was. It has no code: what is proved stands in specs/ and proofs/.
#![tactic(auto)]
