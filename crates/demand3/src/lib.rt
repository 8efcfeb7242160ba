// Demand 3 whole, of lists of removals and of Ward's study. It has no code: what is proved stands in specs/ and proofs/.
#![tactic(auto)]
