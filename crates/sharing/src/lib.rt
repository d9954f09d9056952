// Relations on one allocator (the source's `with_allocator`, document 02's R-2): the record that they share, the record
// of each, opening one, and what the calls on them are made of.
//
// Wire count and slots are shared by all; each relation has its width, its own counts and stores, and a quota of wires.
// Both records are lent, and a refusal leaves them as they were. Every open function answers on every input.

#![tactic(auto, unfolding(limits::specs::Questions::ask, limits::specs::Questions::first_of_two, crate::specs::Opening::with_allocator_no))]

ghost use Rattle.std.specs.Prelude.{◌+◌, ◌≡◌, [], ◌++◌};
ghost use Rattle.limits.specs.Outcome.{as_is, answer_of, outcome_of};
ghost use Rattle.limits.specs.Questions.{first_no, pick};
ghost use Rattle.limits.specs.Asks.{store_asks, count_asks};
ghost use Rattle.allocator.specs.Slots.{fit_asks, most_asks};
ghost use Rattle.sharing.specs.Shares.{any_opened, on_allocator, opened_asks, quota_asks};
ghost use Rattle.sharing.specs.Opening.{with_allocator_no, with_allocator, with_allocator_slots, with_allocator_uses, opened_on};
ghost use Rattle.sharing.specs.Answers.{off_allocator, with_vars, DoesBoth};

use limits::{MAX_COUNT, Refused};
use permutation::PermutationRelation;

// How many relations an allocator may have.
pub const MAX_RELATIONS: u32 = 8;

// What relations share: the wires allocated so far, and how many relations are opened.
#[repr(C)]
#[derive(Clone, Copy)]
pub struct VarAllocator {
    pub vars: u32,
    pub opened: u32,
}

// A relation's own record: all of `PermutationRelation` but the wire count, its quota, and the wires that it obtained.
#[repr(C)]
#[derive(Clone, Copy)]
pub struct SharedRelation {
    pub width: u32,
    pub queries: u32,
    pub equations: u32,
    pub words: u32,
    pub stray: u32,
    pub quota: u32,
    pub obtained: u32,
}

// The relation as one that has its wires to itself would be: the wire count is the allocator's.
pub fn on_allocator(allocator: &VarAllocator, rel: &SharedRelation) -> PermutationRelation
    ensures { result ≡ on_allocator allocator.now rel.now }
{
    PermutationRelation {
        width: rel.width,
        vars: allocator.vars,
        queries: rel.queries,
        equations: rel.equations,
        words: rel.words,
        stray: rel.stray,
    }
}

// What a call that recorded left of the relation alone, taken back into its record.
pub fn record_on(rel: &mut SharedRelation, alone: &PermutationRelation)
    ensures { rel.new ≡ off_allocator rel.old alone.now rel.old.obtained }
{
    rel.width = alone.width;
    rel.queries = alone.queries;
    rel.equations = alone.equations;
    rel.words = alone.words;
    rel.stray = alone.stray;
}

// What a call that allocated left of it, taken back into both records: `obtained` is what the relation now has of its
// quota.
pub fn allocate_on(
    allocator: &mut VarAllocator,
    rel: &mut SharedRelation,
    alone: &PermutationRelation,
    obtained: u32,
)
    ensures count { allocator.new ≡ with_vars allocator.old alone.now.vars }
    ensures relation { rel.new ≡ off_allocator rel.old alone.now obtained }
{
    allocator.vars = alone.vars;
    record_on(rel, alone);
    rel.obtained = obtained;
}

// Question 2 of the wire count, which isn't put while no relation is opened.
pub fn ask_count_on(allocator: &VarAllocator) -> Result<(), Refused>
    ensures { result ≡ outcome_of (first_no (pick (any_opened allocator.now) (count_asks allocator.now.vars) [])) }
{
    if 0 < allocator.opened {
        return limits::ask_count(allocator.vars);
    }
    Ok(())
}

// Question 2 of the slots, and of the wire count where a relation is opened.
pub fn ask_slots_on(allocator: &VarAllocator, len: usize) -> Result<(), Refused>
    ensures { result ≡ outcome_of (first_no (store_asks len ++ pick (any_opened allocator.now) (fit_asks allocator.now.vars len) [])) }
{
    if 0 < allocator.opened {
        return allocator::ask_slots(allocator.vars, len);
    }
    limits::ask_store(len)
}

// Question 2 of the allocator, and 42: is relation `index` opened?
pub fn ask_opened(allocator: &VarAllocator, index: u32) -> Result<(), Refused>
    ensures { result ≡ outcome_of (first_no (opened_asks allocator.now index)) }
{
    limits::ask(2, allocator.opened <= MAX_RELATIONS)?;
    limits::ask(42, index < allocator.opened)
}

// Questions 5 and 43 of n wires more, and what the relation then has of its quota.
pub fn ask_quota(allocator: &VarAllocator, rel: &SharedRelation, n: u32) -> Result<u32, Refused>
    ensures { result ≡ answer_of (first_no (most_asks allocator.now.vars n ++ quota_asks rel.now.quota rel.now.obtained n)) (rel.now.obtained + n) }
{
    let total = allocator.vars as usize + n as usize;
    let more = rel.obtained as usize + n as usize;
    limits::ask(5, total <= MAX_COUNT as usize)?;
    limits::ask(43, more <= rel.quota as usize)?;
    Ok(rel.obtained + n)
}

// Questions 1, 2, 42, 6 and 10 of an opening.
fn ask_with_allocator(
    allocator: &VarAllocator,
    width: u32,
    len: usize,
    uses: usize,
) -> Result<(), Refused>
    ensures { result ≡ outcome_of (with_allocator_no allocator.now width len uses) }
{
    limits::ask_width(width)?;
    limits::ask_store(uses)?;
    ask_slots_on(allocator, len)?;
    limits::ask(2, allocator.opened <= MAX_RELATIONS)?;
    limits::ask(42, allocator.opened < MAX_RELATIONS)?;
    limits::ask(6, 1 <= len)?;
    limits::ask(10, uses == len)
}

// Open a relation (the source's `with_allocator`), and answer its number, which is how many were opened before, and its
// record. The first makes wire 0, which has the value 0. The relation's own use counts become 0. Questions 1, 2, 42, 6,
// 10.
pub fn with_allocator(
    allocator: &mut VarAllocator,
    width: u32,
    quota: u32,
    slots: &mut [u32],
    uses: &mut [u32],
) -> Result<(u32, SharedRelation), Refused>
    ensures { DoesBoth as_is (with_allocator allocator.old width quota slots.old uses.old)
        (with_allocator_slots allocator.old width slots.old uses.old)
        (with_allocator_uses allocator.old width slots.old uses.old) (opened_on result allocator.new) slots.new uses.new }
{
    ask_with_allocator(allocator, width, slots.len(), uses.len())?;
    words::fill(uses, 0);
    let index = allocator.opened;
    if index == 0 {
        slots[0] = 0;
        allocator.vars = 1;
    }
    allocator.opened = index + 1;
    let rel = SharedRelation {
        width,
        queries: 0,
        equations: 0,
        words: 0,
        stray: 0,
        quota,
        obtained: 0,
    };
    Ok((index, rel))
}
