// The byte forms of an instance and of a witness (the source's encoding.rs), written. Crate `decoding` reads them;
// what both begin with, and the version, is in crate `header`.
//
//   SFRI  "SFRI" u8:1 u32:width u32:4 u32:label_len label u32:vars
//         u32:n_publics { u32:var u32:value }*
//         u32:n_queries { u32:var*width (input) u32:var*width (output) }*
//         u32:n_equations { u32:n_terms { u32:var u32:weight }* u32:image }*
//   SFRW  "SFRW" u8:1 u32:width u32:4 u32:n_steps { u32*width (input) u32*width (output) }*
//
// Numbers are little-endian. A write leaves what lies past its bytes as it was, and a refused one changes
// nothing. Every open function answers on every input: how many bytes it wrote, or the refusal.

#![tactic(auto, unfolding(limits::specs::Questions::ask, limits::specs::Questions::first_of_two))]

mod put;
mod sfri;
mod sfrw;

pub use sfri::instance_to_bytes;
pub use sfrw::witness_to_bytes;
