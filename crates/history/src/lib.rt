// Every list of calls on a relation, and what the check says after it: the theorem behind demand 3.
//
// The definitions are in specs/, the proof is in proofs/; there is no code here.
#![tactic(auto)]

fn nothing() {}
