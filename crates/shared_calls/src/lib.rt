// Each opening and each call of demand 3's list for relations on one allocator, by code that runs: a thin open function
// that hands it on to `sharing`, `shared_vars`, `shared_recording` or `shared_withdraw`, with what the theorem says of
// the call as its contract.
//
// For every state, what the function answers and leaves is what the list has there (`shared_answer` and `shared_after` of
// shared_history/specs/Calls), whatever the other relations have, and whatever the relation's stores hold that the call is
// not lent. So of calls made in turn, each on what the one before it left, the answers are the theorem's `shared_log` and
// the last state its `shared_final`, in lists of any length (proofs/Lists.antt). The gate needs no function here:
// shared_history/specs/Whole is written with the very definitions that the contract of `shared_compile` cites.

#![tactic(auto)]

ghost use Rattle.std.specs.Prelude.{List, ℕ};
ghost use Rattle.allocator.specs.Slots.{pair};
ghost use Rattle.history.specs.Calls.{Allocate, Set, SetList, Record, Mint, Equate, Tickets, WithdrawQuery, WithdrawEquation, of_outcome, of_first, of_set, of_set_vars, of_set_tickets};
ghost use Rattle.sharing.specs.Opening.{opened_on};
ghost use Rattle.shared_calls.specs.Performs.{OnRelation, Opens};

use allocator::FieldVar;
use baby_bear::BabyBearUnit;
use expr::Weighted;
use limits::Refused;
use permutation::SetVars;
use sharing::{SharedRelation, VarAllocator};
use tickets::SetTickets;

// An opening; what the list starts from is the first.
pub fn with_allocator(
    allocator: &mut VarAllocator,
    width: u32,
    quota: u32,
    slots: &mut [u32],
    uses: &mut [u32],
) -> Result<(u32, SharedRelation), Refused>
    ensures { Opens width quota (opened_on result allocator.new) allocator.old slots.old uses.old slots.new uses.new }
{
    sharing::with_allocator(allocator, width, quota, slots, uses)
}

// Allocate.
pub fn allocate_vars_on(
    allocator: &mut VarAllocator,
    index: u32,
    rel: &mut SharedRelation,
    slots: &mut [u32],
    n: u32,
) -> Result<u32, Refused>
    ensures { (queries equations uses : List ℕ) → OnRelation index (Allocate n) (of_first result) allocator.old rel.old slots.old queries equations uses
        allocator.new rel.new slots.new queries equations uses }
{
    shared_vars::allocate_vars_on(allocator, index, rel, slots, n)
}

// Set.
pub fn set_var_on(
    allocator: &VarAllocator,
    index: u32,
    rel: &SharedRelation,
    slots: &mut [u32],
    var: FieldVar,
    value: BabyBearUnit,
) -> Result<allocator::Set, Refused>
    ensures { (queries equations uses : List ℕ) → OnRelation index (Set (pair var.0 value.0)) (of_set result) allocator.now rel.now slots.old queries equations uses
        allocator.now rel.now slots.new queries equations uses }
{
    shared_vars::set_var_on(allocator, index, rel, slots, var, value)
}

// Set list.
pub fn set_vars_on(
    allocator: &VarAllocator,
    index: u32,
    rel: &SharedRelation,
    slots: &mut [u32],
    vars: &[u32],
    values: &[u32],
) -> SetVars
    ensures { (queries equations uses : List ℕ) → OnRelation index (SetList vars.now values.now) (of_set_vars result) allocator.now rel.now slots.old queries equations uses
        allocator.now rel.now slots.new queries equations uses }
{
    shared_vars::set_vars_on(allocator, index, rel, slots, vars, values)
}

// Tickets.
pub fn set_tickets_on(
    allocator: &VarAllocator,
    index: u32,
    rel: &SharedRelation,
    slots: &mut [u32],
    text: &[u8],
) -> SetTickets
    ensures { (queries equations uses : List ℕ) → OnRelation index (Tickets text.now) (of_set_tickets result) allocator.now rel.now slots.old queries equations uses
        allocator.now rel.now slots.new queries equations uses }
{
    shared_vars::set_tickets_on(allocator, index, rel, slots, text)
}

// Record.
pub fn add_permutation_on(
    allocator: &VarAllocator,
    index: u32,
    rel: &mut SharedRelation,
    slots: &[u32],
    queries: &mut [u32],
    uses: &mut [u32],
    input: &[u32],
    output: &[u32],
) -> Result<(), Refused>
    ensures { (equations : List ℕ) → OnRelation index (Record input.now output.now) (of_outcome result)
        allocator.now rel.old slots.now queries.old equations uses.old
        allocator.now rel.new slots.now queries.new equations uses.new }
{
    shared_recording::add_permutation_on(allocator, index, rel, slots, queries, uses, input, output)
}

// Mint.
pub fn allocate_permutation_on(
    allocator: &mut VarAllocator,
    index: u32,
    rel: &mut SharedRelation,
    slots: &mut [u32],
    queries: &mut [u32],
    uses: &mut [u32],
    input: &[u32],
) -> Result<u32, Refused>
    ensures { (equations : List ℕ) → OnRelation index (Mint input.now) (of_first result)
        allocator.old rel.old slots.old queries.old equations uses.old
        allocator.new rel.new slots.new queries.new equations uses.new }
{
    shared_recording::allocate_permutation_on(allocator, index, rel, slots, queries, uses, input)
}

// A query withdrawn.
pub fn withdraw_query_on(
    allocator: &VarAllocator,
    index: u32,
    rel: &mut SharedRelation,
    slots: &[u32],
    queries: &mut [u32],
    uses: &mut [u32],
    i: u32,
) -> Result<(), Refused>
    ensures { (equations : List ℕ) → OnRelation index (WithdrawQuery i) (of_outcome result)
        allocator.now rel.old slots.now queries.old equations uses.old
        allocator.now rel.new slots.now queries.new equations uses.new }
{
    shared_withdraw::withdraw_query_on(allocator, index, rel, slots, queries, uses, i)
}

// An equation withdrawn.
pub fn withdraw_equation_on(
    allocator: &VarAllocator,
    index: u32,
    rel: &mut SharedRelation,
    equations: &mut [u32],
    i: u32,
) -> Result<(), Refused>
    ensures { (slots queries uses : List ℕ) → OnRelation index (WithdrawEquation i) (of_outcome result)
        allocator.now rel.old slots queries equations.old uses
        allocator.now rel.new slots queries equations.new uses }
{
    shared_withdraw::withdraw_equation_on(allocator, index, rel, equations, i)
}

// Equation.
pub fn add_equation_on(
    allocator: &VarAllocator,
    index: u32,
    rel: &mut SharedRelation,
    equations: &mut [u32],
    terms: &[Weighted],
    image: BabyBearUnit,
) -> Result<(), Refused>
    ensures { (slots queries uses : List ℕ) → OnRelation index (Equate terms.now image.0) (of_outcome result)
        allocator.now rel.old slots queries equations.old uses
        allocator.now rel.new slots queries equations.new uses }
{
    shared_recording::add_equation_on(allocator, index, rel, equations, terms, image)
}
