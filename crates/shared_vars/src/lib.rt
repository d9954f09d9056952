// The calls on the wires of relation `index` of an allocator (document 02's R-2): allocate, set, set list, tickets, the
// value of a wire, and whether it is allocated.
//
// Each call puts the front of its questions, up to the last that sharing puts in, and then does what the same call does
// to a relation alone that has the shared wire count for its own. Every open function answers on every input.

#![tactic(auto, unfolding(limits::specs::Questions::ask, limits::specs::Questions::first_of_two, crate::specs::Answers::relation_on_no, crate::specs::Answers::allocate_vars_on_no, crate::specs::Answers::set_vars_on_no, crate::specs::Answers::set_vars_on_run, crate::specs::Answers::set_tickets_on_run, crate::specs::Answers::is_allocated_on_no))]

ghost use Rattle.std.specs.Prelude.{◌+◌, ◌≡◌};
ghost use Rattle.limits.specs.Outcome.{as_is, answer_of, outcome_of};
ghost use Rattle.allocator.specs.Slots.{pair};
ghost use Rattle.allocator.specs.Assign.{Runs};
ghost use Rattle.permutation.specs.Answers.{set_vars_of};
ghost use Rattle.tickets.specs.Tickets.{set_tickets_of};
ghost use Rattle.sharing.specs.Records.{first_on};
ghost use Rattle.sharing.specs.Answers.{Does};
ghost use Rattle.shared_vars.specs.Answers.{relation_on_no, allocate_vars_on_no, set_vars_on_no, allocate_vars_on, allocate_vars_on_slots, set_var_on, set_var_on_slots, set_vars_on_run, set_tickets_on_run, value_of_on, is_allocated_on};

use allocator::{FieldVar, Set};
use baby_bear::BabyBearUnit;
use limits::Refused;
use permutation::SetVars;
use sharing::{SharedRelation, VarAllocator};
use tickets::SetTickets;

// Questions 1, 2 and 42 of a call that looks at the slots. Where a relation is opened, 1 and 2 are put as the call of a
// relation alone puts them again, so that the compiler may work them out once.
fn ask_relation_on(
    allocator: &VarAllocator,
    index: u32,
    rel: &SharedRelation,
    len: usize,
) -> Result<(), Refused>
    ensures { result ≡ outcome_of (relation_on_no allocator.now index rel.now len) }
{
    if 0 < allocator.opened {
        permutation::ask_relation(&sharing::on_allocator(allocator, rel), len)?;
        return sharing::ask_opened(allocator, index);
    }
    limits::ask_width(rel.width)?;
    limits::ask_store(len)?;
    sharing::ask_opened(allocator, index)
}

// The questions of an allocate call up to 43, and what the relation then has of its quota.
fn ask_allocate_vars_on(
    allocator: &VarAllocator,
    index: u32,
    rel: &SharedRelation,
    len: usize,
    n: u32,
) -> Result<u32, Refused>
    ensures { result ≡ answer_of (allocate_vars_on_no allocator.now index rel.now len n) (rel.now.obtained + n) }
{
    ask_relation_on(allocator, index, rel, len)?;
    sharing::ask_quota(allocator, rel, n)
}

// The next n wires for the relation, their slots unassigned. Questions 1, 2, 42, 5, 43, 6.
pub fn allocate_vars_on(
    allocator: &mut VarAllocator,
    index: u32,
    rel: &mut SharedRelation,
    slots: &mut [u32],
    n: u32,
) -> Result<u32, Refused>
    ensures { Does as_is (allocate_vars_on allocator.old index rel.old slots.old n) (allocate_vars_on_slots allocator.old index rel.old slots.old n) (first_on result allocator.new rel.new) slots.new }
{
    let obtained = ask_allocate_vars_on(allocator, index, rel, slots.len(), n)?;
    let mut alone = sharing::on_allocator(allocator, rel);
    let first = permutation::allocate_vars(&mut alone, slots, n)?;
    sharing::allocate_on(allocator, rel, &alone, obtained);
    Ok(first)
}

// Assign a wire its value, which makes it public to all. Questions 1, 2, 42, 3, 4, 7, 8.
pub fn set_var_on(
    allocator: &VarAllocator,
    index: u32,
    rel: &SharedRelation,
    slots: &mut [u32],
    var: FieldVar,
    value: BabyBearUnit,
) -> Result<Set, Refused>
    ensures { Does as_is (set_var_on allocator.now index rel.now slots.old (pair var.0 value.0)) (set_var_on_slots allocator.now index rel.now slots.old (pair var.0 value.0)) result slots.new }
{
    ask_relation_on(allocator, index, rel, slots.len())?;
    permutation::set_var(&sharing::on_allocator(allocator, rel), slots, var, value)
}

// The questions of a set list before its pairs are tried.
fn ask_set_vars_on(
    allocator: &VarAllocator,
    index: u32,
    rel: &SharedRelation,
    len: usize,
    vars: &[u32],
    values: &[u32],
) -> Result<(), Refused>
    ensures { result ≡ outcome_of (set_vars_on_no allocator.now index rel.now len vars.now values.now) }
{
    limits::ask_width(rel.width)?;
    sharing::ask_slots_on(allocator, len)?;
    limits::ask_store(vars.len())?;
    limits::ask_store(values.len())?;
    sharing::ask_opened(allocator, index)
}

// Assign each wire of a list the value in the same place of another. Questions 1, 2 and 42, then 3, 4, 7, 8 pair by
// pair, then 9.
pub fn set_vars_on(
    allocator: &VarAllocator,
    index: u32,
    rel: &SharedRelation,
    slots: &mut [u32],
    vars: &[u32],
    values: &[u32],
) -> SetVars
    ensures { Runs (λ run. as_is (set_vars_of run)) (set_vars_on_run allocator.now index rel.now slots.old vars.now values.now) result slots.new }
{
    match ask_set_vars_on(allocator, index, rel, slots.len(), vars, values) {
        Err(refused) => SetVars {
            outcome: Err(refused),
            accepted: 0,
            fresh: 0,
        },
        Ok(()) => {
            permutation::set_vars(&sharing::on_allocator(allocator, rel), slots, vars, values)
        }
    }
}

// Set each wire that a text's ticket lines name to its steps. Questions 1, 2 and 42, then 40, 3, 41, 7, 8 line by line.
pub fn set_tickets_on(
    allocator: &VarAllocator,
    index: u32,
    rel: &SharedRelation,
    slots: &mut [u32],
    text: &[u8],
) -> SetTickets
    ensures { Runs (λ run. as_is (set_tickets_of run)) (set_tickets_on_run allocator.now index rel.now slots.old text.now) result slots.new }
{
    match ask_relation_on(allocator, index, rel, slots.len()) {
        Err(refused) => SetTickets {
            outcome: Err(refused),
            accepted: 0,
            fresh: 0,
        },
        Ok(()) => tickets::set_tickets(&sharing::on_allocator(allocator, rel), slots, text),
    }
}

// The value of a wire, or none where it is unassigned or beyond the count. Questions 1, 2, 42, 3.
pub fn value_of_on(
    allocator: &VarAllocator,
    index: u32,
    rel: &SharedRelation,
    slots: &[u32],
    var: FieldVar,
) -> Result<Option<u32>, Refused>
    ensures { result ≡ value_of_on allocator.now index rel.now slots.now var.0 }
{
    ask_relation_on(allocator, index, rel, slots.len())?;
    permutation::value_of(&sharing::on_allocator(allocator, rel), slots, var)
}

// Is the wire allocated, by any relation? Questions 1, 2, 42, 3.
pub fn is_allocated_on(
    allocator: &VarAllocator,
    index: u32,
    rel: &SharedRelation,
    var: FieldVar,
) -> Result<bool, Refused>
    ensures { result ≡ is_allocated_on allocator.now index rel.now var.0 }
{
    limits::ask_width(rel.width)?;
    sharing::ask_count_on(allocator)?;
    sharing::ask_opened(allocator, index)?;
    permutation::is_allocated(&sharing::on_allocator(allocator, rel), var)
}
