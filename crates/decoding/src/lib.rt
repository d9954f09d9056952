// The byte forms of an instance and of a witness (the source's encoding.rs), read. Crate `encoding` writes them and
// tells their fields (encoding/src/lib.rt); what both begin with is read in crate `header`, lists in `items`, label and
// parts in `parts`; what a strict read asks besides is in `zero_wire`.
//
// A store that is read into has 0 behind what was read, and is all 0 where a read refuses. Every open function answers on every
// input.

#![tactic(auto, unfolding(limits::specs::Questions::ask, limits::specs::Questions::first_of_two))]

use instance::PermutationInstance;

mod sfri;
mod sfrw;

pub use sfri::{instance_from_bytes, instance_from_bytes_at, strict_instance_from_bytes_at};
pub use sfrw::witness_from_bytes;

// Where a part of the bytes lies.
#[repr(C)]
#[derive(Clone, Copy)]
pub struct Span {
    pub at: usize,
    pub len: usize,
}

// An instance that was read: its record, and where its label lies.
#[derive(Clone, Copy)]
pub struct InstanceRead {
    pub instance: PermutationInstance,
    pub label: Span,
}

// The same with the label itself: the part of the bytes that holds it.
#[derive(Clone, Copy)]
pub struct InstanceFile<'a> {
    pub instance: PermutationInstance,
    pub label: &'a [u8],
}
