// The byte forms there and back: what was written is read, what is read was written, what a read with a rule accepts
// beside the plain one, and document 01's examples on bytes.
//
// The definitions are those of crates header, encoding and decoding, the laws are in proofs/; there is no code here.
#![tactic(auto)]

fn nothing() {}
