// Demand 3 of the port, stated in specs/Statement.antt for callers of `discipline::step` and proved in proofs/Theorem.antt; of traces and of the trace
// program, stated in specs/traces and proved in proofs/traces. There is no code here.

#![tactic(auto)]
