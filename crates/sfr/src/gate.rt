// The gate, the value of a wire in an instance and its heading, for C.

ghost use Rattle.std.specs.Prelude.{◌≡◌, length};
ghost use Rattle.instance.specs.Looks.{public_value};
ghost use Rattle.compile.specs.Records.{gated};
ghost use Rattle.compile.specs.Gate.{gate_lent, Compiles};
ghost use Rattle.sfr.specs.Relation.{value_answer};
ghost use Rattle.sfr.specs.Gate.{compiled_answer, heading_answer};

use crate::relation::{SfrValue, value_answer};
use allocator::FieldVar;
use instance::PermutationInstance;
use limits::Refused;
use permutation::PermutationRelation;

// The gate's number with the instance's record, of zeros after a refusal.
#[repr(C)]
#[derive(Clone, Copy)]
pub struct SfrInstanceAnswer {
    pub number: u32,
    pub instance: PermutationInstance,
}

// The record of zeros that stands where no instance was made or read.
pub(crate) const NO_INSTANCE: PermutationInstance = PermutationInstance {
    width: 0,
    vars: 0,
    queries: 0,
    equations: 0,
    words: 0,
    publics: 0,
};

// What the gate answers, for C.
pub(crate) fn compiled_answer(made: Result<PermutationInstance, Refused>) -> SfrInstanceAnswer
    ensures { result ≡ compiled_answer (gated made) }
{
    SfrInstanceAnswer {
        number: limits::number(&made),
        instance: made.unwrap_or(NO_INSTANCE),
    }
}

// The gate: the relation becomes an instance, and its publics are written.
#[unsafe(no_mangle)]
pub extern "C" fn sfr_compile(
    rel: PermutationRelation,
    label: &[u8],
    slots: &[u32],
    queries: &[u32],
    equations: &[u32],
    uses: &[u32],
    publics: &mut [u32],
    scratch: &mut [u32],
) -> SfrInstanceAnswer
    ensures { Compiles compiled_answer (gate_lent rel label.now slots.now queries.now equations.now
        uses.now (length publics.old) (length scratch.old)) result publics.new scratch.new }
{
    compiled_answer(compile::compile(
        &rel, label, slots, queries, equations, uses, publics, scratch,
    ))
}

// The value of a wire in an instance: that of the last public pair that lists it.
#[unsafe(no_mangle)]
pub extern "C" fn sfr_public_value(ins: PermutationInstance, publics: &[u32], var: u32) -> SfrValue
    ensures { result ≡ value_answer (public_value ins publics.now var) }
{
    value_answer(instance::public_value(&ins, publics, FieldVar(var)))
}

// The heading: the name where `named`, else the label, and its length.
#[repr(C)]
#[derive(Clone, Copy)]
pub struct SfrHeading {
    pub named: bool,
    pub len: usize,
}

// A reference cannot go back to C, so the answer says which of the two lent lists the heading is.
#[unsafe(no_mangle)]
pub extern "C" fn sfr_heading<'a>(label: &'a [u8], name: &'a [u8]) -> SfrHeading
    ensures { result ≡ heading_answer (length label.now) (length name.now) }
{
    let part = instance::heading(label, name);
    let len = part.len();
    let named = label.len() == 0;
    SfrHeading { named, len }
}
