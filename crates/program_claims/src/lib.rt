// Demand 3 of the program `reduce`: what it prints after its drop lines. There is no code here: what is proved stands in specs/ and
// proofs/.
#![tactic(auto)]
