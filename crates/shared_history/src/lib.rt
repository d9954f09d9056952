// Every list of openings and calls of relations on one allocator, and what the check says after it: the theorem behind demand 3.
//
// The definitions are in specs/, the proof is in proofs/; there is no code here.
#![tactic(auto)]

fn nothing() {}
