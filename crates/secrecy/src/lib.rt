// Demand 3 of the rules is stated in specs/Statement.antt and proved in proofs/. There is no code here.

#![tactic(auto)]
