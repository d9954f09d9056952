// Wires of a relation and the slots that hold their values (the source's allocator.rs).
//
// The wire count goes in by value and the slots are lent; a slot is a unit, or UNASSIGNED where the wire has
// no value yet. The functions here are what the calls on a relation are made of: questions on count and
// slots, one wire set, a list of wires set, more wires. Each answers on every input.

#![tactic(auto, unfolding(limits::specs::Questions::ask, limits::specs::Questions::first_of_two))]

ghost use Rattle.std.specs.Prelude.{◌≡◌};
ghost use Rattle.limits.specs.Questions.{first_no};
ghost use Rattle.limits.specs.Outcome.{outcome_of};
ghost use Rattle.allocator.specs.Slots.{slots_asks, grow_asks, wire_asks, pair, pairs, set_run};
ghost use Rattle.allocator.specs.Assign.{AssignsVar, fresh_of, set_fresh, how_far, Runs, grow_slots};

use baby_bear::BabyBearUnit;
use limits::{MAX_COUNT, P, Refused, UNASSIGNED};

// A wire of a relation: a plain index. Wire 0 is the one that every relation assigns the value zero.
#[repr(C)]
#[derive(Clone, Copy)]
pub struct FieldVar(pub u32);

// An accepted set: fresh where the wire's slot was unassigned just before, repeated where it held that value.
#[derive(Clone, Copy, PartialEq, Eq)]
pub enum Set {
    Fresh,
    Repeated,
}

// How far pairs were set in turn: up to the first that is refused, how many were accepted, and how many of those were
// fresh. (Not in a Result: a refusal has these counts too, of the pairs before it, which stay set.)
#[derive(Clone, Copy)]
pub struct SetPairs {
    pub outcome: Result<(), Refused>,
    pub accepted: usize,
    pub fresh: usize,
}

// Question 2 of the slots, by their wire count and the store's length.
pub fn ask_slots(count: u32, len: usize) -> Result<(), Refused>
    ensures { result ≡ outcome_of (first_no (slots_asks count len)) }
{
    limits::ask_store(len)?;
    limits::ask_count(count)?;
    limits::ask(2, count as usize <= len)
}

// Questions 5 and 6: n more wires.
pub fn ask_grow(count: u32, len: usize, n: u32) -> Result<(), Refused>
    ensures { result ≡ outcome_of (first_no (grow_asks count len n)) }
{
    let total = count as usize + n as usize;
    limits::ask(5, total <= MAX_COUNT as usize)?;
    limits::ask(6, total <= len)
}

// n more wires: their slots become unassigned. Where the store does not hold them, nothing is written.
pub fn grow_slots(slots: &mut [u32], count: u32, n: u32)
    ensures { slots.new ≡ grow_slots count n slots.old }
{
    let start = count as usize;
    let end = start + n as usize;
    if slots.len() < end {
        return;
    }
    words::fill(&mut slots[start..end], UNASSIGNED);
}

// Questions 3, 4 and 7 of a wire and its value.
fn ask_wire(count: u32, var: u32, value: u32) -> Result<(), Refused>
    ensures { result ≡ outcome_of (first_no (wire_asks count (pair var value))) }
{
    limits::ask(3, var < MAX_COUNT)?;
    limits::ask(4, value < P)?;
    limits::ask(7, var < count)
}

// One wire set: questions 3, 4, 7 and 8 (what the source's `set_var` does behind its lock). A slot that the store lacks
// counts as unassigned.
#[tactic(auto, unfolding(limits::specs::Questions::ask, limits::specs::Questions::first_of_two, crate::specs::Slots::pair_no))]
pub fn assign_var(
    count: u32,
    slots: &mut [u32],
    var: FieldVar,
    value: BabyBearUnit,
) -> Result<Set, Refused>
    ensures { AssignsVar count slots.old (pair var.0 value.0) result slots.new }
{
    ask_wire(count, var.0, value.0)?;
    let at = var.0 as usize;
    if slots.len() <= at {
        return Ok(Set::Fresh);
    }
    let held = slots[at];
    if held == UNASSIGNED {
        slots[at] = value.0;
        return Ok(Set::Fresh);
    }
    if held == value.0 {
        return Ok(Set::Repeated);
    }
    Err(Refused(8))
}

// How many fresh ones an accepted set counts.
pub fn fresh_of(set: Set) -> usize
    ensures { result ≡ fresh_of set }
{
    match set {
        Set::Fresh => 1,
        Set::Repeated => 0,
    }
}

// How many an answer counts: none where it refuses.
pub fn set_fresh(answer: Result<Set, Refused>) -> usize
    ensures { result ≡ set_fresh answer }
{
    match answer {
        Ok(set) => fresh_of(set),
        Err(_) => 0,
    }
}

// The common pairs of two lists set in turn, up to the first that is refused; earlier ones stay set.
pub fn set_pairs(count: u32, slots: &mut [u32], vars: &[u32], values: &[u32]) -> SetPairs
    ensures { Runs how_far (set_run count slots.old (pairs vars.now values.now)) result slots.new }
{
    let mut accepted = 0;
    let mut fresh = 0;
    for (var, value) in vars.iter().zip(values) {
        match assign_var(count, slots, FieldVar(*var), BabyBearUnit(*value)) {
            Ok(set) => fresh += fresh_of(set),
            Err(refused) => {
                return SetPairs {
                    outcome: Err(refused),
                    accepted,
                    fresh,
                };
            }
        }
        accepted += 1;
    }
    SetPairs {
        outcome: Ok(()),
        accepted,
        fresh,
    }
}
