// A relation over evaluations of a permutation: its record, and the calls on its wires (the source's allocator.rs,
// on a relation).
//
// Record and slots are lent. Each call puts its questions first and acts only where none says no, so a refusal changes
// nothing; the set list alone keeps the pairs that it accepted.

#![tactic(auto, unfolding(limits::specs::Questions::ask, limits::specs::Questions::first_of_two, crate::specs::Numbers::new_relation_no, crate::specs::Numbers::allocate_vars_no, crate::specs::Numbers::set_vars_no, crate::specs::Numbers::set_var_no, crate::specs::Numbers::value_of_no, crate::specs::Numbers::is_allocated_no))]

ghost use Rattle.std.specs.Prelude.{◌≡◌};
ghost use Rattle.limits.specs.Outcome.{as_is, outcome_of};
ghost use Rattle.limits.specs.Questions.{first_no};
ghost use Rattle.allocator.specs.Slots.{pair};
ghost use Rattle.permutation.specs.Records.{made, allocated};
ghost use Rattle.permutation.specs.Relation.{relation_asks};
ghost use Rattle.permutation.specs.Numbers.{new_relation_no, set_vars_no};
ghost use Rattle.permutation.specs.Answers.{value_of, is_allocated};
ghost use Rattle.permutation.specs.Effects.{MakesRelation, AllocatesVars, SetsVar, SetsVars};

use allocator::{FieldVar, Set};
use baby_bear::BabyBearUnit;
use limits::{MAX_COUNT, Refused, UNASSIGNED};

// The relation's record: its width, the counts of wires, queries, equations and used equation words, and the stray
// count, of the query cells that name wires beyond the slots.
#[repr(C)]
#[derive(Clone, Copy)]
pub struct PermutationRelation {
    pub width: u32,
    pub vars: u32,
    pub queries: u32,
    pub equations: u32,
    pub words: u32,
    pub stray: u32,
}

// A set list's outcome, how many of its first pairs were accepted, and how many of those were fresh. (Not in a Result,
// as `allocator::SetPairs`.)
#[derive(Clone, Copy)]
pub struct SetVars {
    pub outcome: Result<(), Refused>,
    pub accepted: u32,
    pub fresh: u32,
}

// Questions 1, 2, 6 and 10 of a fresh call.
fn ask_new_relation(width: u32, len: usize, uses: usize) -> Result<(), Refused>
    ensures { result ≡ outcome_of (new_relation_no width len uses) }
{
    limits::ask_width(width)?;
    limits::ask_store(uses)?;
    limits::ask_store(len)?;
    limits::ask(6, 1 <= len)?;
    limits::ask(10, uses == len)
}

// A relation with wire 0 alone, which has the value 0 (document 01: fresh); no query names a wire yet, so the use
// counts become 0. Questions 1, 2, 6, 10.
pub fn new_relation(
    width: u32,
    slots: &mut [u32],
    uses: &mut [u32],
) -> Result<PermutationRelation, Refused>
    ensures { MakesRelation as_is width slots.old uses.old (made result) slots.new uses.new }
{
    ask_new_relation(width, slots.len(), uses.len())?;
    slots[0] = 0;
    words::fill(uses, 0);
    Ok(PermutationRelation {
        width,
        vars: 1,
        queries: 0,
        equations: 0,
        words: 0,
        stray: 0,
    })
}

// Questions 1 and 2 of a relation and its slots.
pub fn ask_relation(rel: &PermutationRelation, len: usize) -> Result<(), Refused>
    ensures { result ≡ outcome_of (first_no (relation_asks rel.now len)) }
{
    limits::ask_width(rel.width)?;
    allocator::ask_slots(rel.vars, len)
}

// The next n wires, their slots unassigned (the source's `allocate_vars_vec`), from the one that is answered on: 2^30,
// which is no wire, where none are asked for and none are left. Questions 1, 2, 5, 6.
pub fn allocate_vars(
    rel: &mut PermutationRelation,
    slots: &mut [u32],
    n: u32,
) -> Result<u32, Refused>
    ensures { AllocatesVars as_is rel.old slots.old n (allocated result rel.new) slots.new }
{
    ask_relation(rel, slots.len())?;
    allocator::ask_grow(rel.vars, slots.len(), n)?;
    let first = rel.vars;
    allocator::grow_slots(slots, first, n);
    rel.vars = first + n;
    Ok(first)
}

// Assign a wire its value, which makes it public (the source's `set_var`). Questions 1, 2, 3, 4, 7, 8.
pub fn set_var(
    rel: &PermutationRelation,
    slots: &mut [u32],
    var: FieldVar,
    value: BabyBearUnit,
) -> Result<Set, Refused>
    ensures { SetsVar as_is rel.now slots.old (pair var.0 value.0) result slots.new }
{
    ask_relation(rel, slots.len())?;
    allocator::assign_var(rel.vars, slots, var, value)
}

// Questions 1 and 2 of a set list.
fn ask_set_vars(
    rel: &PermutationRelation,
    len: usize,
    vars: &[u32],
    values: &[u32],
) -> Result<(), Refused>
    ensures { result ≡ outcome_of (set_vars_no rel.now len vars.now values.now) }
{
    ask_relation(rel, len)?;
    limits::ask_store(vars.len())?;
    limits::ask_store(values.len())
}

// Assign each wire of a list the value in the same place of another (the source's `set_vars`). Questions 1
// and 2, then 3, 4, 7, 8 pair by pair, then 9, whether the lists have one length.
pub fn set_vars(
    rel: &PermutationRelation,
    slots: &mut [u32],
    vars: &[u32],
    values: &[u32],
) -> SetVars
    ensures { SetsVars as_is rel.now slots.old vars.now values.now result slots.new }
{
    match ask_set_vars(rel, slots.len(), vars, values) {
        Err(refused) => SetVars {
            outcome: Err(refused),
            accepted: 0,
            fresh: 0,
        },
        Ok(()) => {
            let run = allocator::set_pairs(rel.vars, slots, vars, values);
            SetVars {
                outcome: run.outcome.and(limits::ask(9, vars.len() == values.len())),
                accepted: run.accepted as u32,
                fresh: run.fresh as u32,
            }
        }
    }
}

// The value of a wire, or none where it is unassigned or beyond the count. Questions 1, 2, 3.
pub fn value_of(
    rel: &PermutationRelation,
    slots: &[u32],
    var: FieldVar,
) -> Result<Option<u32>, Refused>
    ensures { result ≡ value_of rel.now slots.now var.0 }
{
    ask_relation(rel, slots.len())?;
    limits::ask(3, var.0 < MAX_COUNT)?;
    if rel.vars <= var.0 {
        return Ok(None);
    }
    let held = slots[var.0 as usize];
    if held == UNASSIGNED {
        return Ok(None);
    }
    Ok(Some(held))
}

// Is the wire one of the relation's? Questions 1, 2, 3.
pub fn is_allocated(rel: &PermutationRelation, var: FieldVar) -> Result<bool, Refused>
    ensures { result ≡ is_allocated rel.now var.0 }
{
    limits::ask_width(rel.width)?;
    limits::ask_count(rel.vars)?;
    limits::ask(3, var.0 < MAX_COUNT)?;
    Ok(var.0 < rel.vars)
}
