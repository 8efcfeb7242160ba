// Demand 3 of lists of removals: what they leave as it was. It has no code: what is proved stands in specs/ and proofs/.
#![tactic(auto)]
