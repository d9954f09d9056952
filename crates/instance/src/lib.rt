// Instances of a relation (the second half of the source's permutation.rs): the record, the value of a wire in
// one, and its heading.
//
// An instance is a record, and parts that lie in lent stores: publics as wire and unit pairs,
// queries and equations as a relation holds them, and the label as bytes. What is asked of held parts is in the
// crates `held` (2 and 11) and `validated` (16, 12 to 15); the gate that makes an instance is the crate `compile`.
// Every open function answers on every input.

#![tactic(auto, unfolding(limits::specs::Questions::ask, limits::specs::Questions::first_of_two, crate::specs::Looks::public_value_no, crate::specs::Looks::public_value))]

ghost use Rattle.std.specs.Prelude.{◌≡◌, ◌*◌, ◌≤◌, length, None};
ghost use Rattle.instance.specs.Parts.{pairs_at};
ghost use Rattle.instance.specs.Looks.{public_value, last_value, heading};

use allocator::FieldVar;
use limits::{MAX_COUNT, Refused};

// An instance's record: a relation's, and the count of public pairs.
#[repr(C)]
#[derive(Clone, Copy)]
pub struct PermutationInstance {
    pub width: u32,
    pub vars: u32,
    pub queries: u32,
    pub equations: u32,
    pub words: u32,
    pub publics: u32,
}

// The unit of the last of the first n pairs that lists the wire, looked for from the back.
fn last_value(publics: &[u32], n: u32, x: u32) -> Option<u32>
    requires { 2 * n ≤ length publics.now }
    ensures { result ≡ last_value (pairs_at n publics.now) x None }
{
    for i in (0..n as usize).rev() {
        if publics[2 * i] == x {
            return Some(publics[2 * i + 1]);
        }
    }
    None
}

// The value of a wire in held publics, or none where no pair lists it. Questions 1, 2, 3.
pub fn public_value(
    ins: &PermutationInstance,
    publics: &[u32],
    var: FieldVar,
) -> Result<Option<u32>, Refused>
    ensures { result ≡ public_value ins.now publics.now var.0 }
{
    limits::ask_width(ins.width)?;
    limits::ask_store(publics.len())?;
    limits::ask(2, 2 * ins.publics as usize <= publics.len())?;
    limits::ask(3, var.0 < MAX_COUNT)?;
    Ok(last_value(publics, ins.publics, var.0))
}

// The label, or where that has no bytes the name lent with the permutation's parameters: that very slice.
pub fn heading<'a>(label: &'a [u8], name: &'a [u8]) -> &'a [u8]
    ensures { result ≡ heading (length label.now) label.entry name.entry }
{
    if label.len() == 0 {
        return name;
    }
    label
}
