// Each call of demand 3's list by code that runs: a thin open function that hands it on to `permutation`, `recording`,
// `withdraw` or `tickets`, with what the theorem says of the call as its contract.
//
// For every state, what the function answers and leaves is what the list has there (`answer` and `after` of
// history/specs/Calls), whatever the stores hold that the call is not lent. So of calls made in turn, each on what the
// one before it left, the answers are the theorem's `log` and the last state its `final`, in lists of any length
// (proofs/Lists.antt). Gate, writes, reads and check need no function here: history/specs/Whole is written with the very
// definitions that the contracts of `compile`, `encoding`, `decoding` and `validity` cite.

#![tactic(auto)]

ghost use Rattle.allocator.specs.Slots.{pair};
ghost use Rattle.permutation.specs.Records.{made};
ghost use Rattle.history.specs.Calls.{Allocate, Set, SetList, Record, Mint, Equate, Tickets, WithdrawQuery, WithdrawEquation, of_outcome, of_first, of_set, of_set_vars, of_set_tickets};
ghost use Rattle.calls.specs.Performs.{StartsSlots, OnSlots, OnQueries, OnSlotsQueries, OnEquations};

use allocator::FieldVar;
use baby_bear::BabyBearUnit;
use expr::Weighted;
use limits::Refused;
use permutation::{PermutationRelation, SetVars};
use tickets::SetTickets;

// What the list starts from.
pub fn new_relation(
    width: u32,
    slots: &mut [u32],
    uses: &mut [u32],
) -> Result<PermutationRelation, Refused>
    ensures { StartsSlots width slots.old uses.old (made result) slots.new uses.new }
{
    permutation::new_relation(width, slots, uses)
}

// Allocate.
pub fn allocate_vars(
    rel: &mut PermutationRelation,
    slots: &mut [u32],
    n: u32,
) -> Result<u32, Refused>
    ensures { OnSlots rel.old slots.old (Allocate n) (of_first result) rel.new slots.new }
{
    permutation::allocate_vars(rel, slots, n)
}

// Set.
pub fn set_var(
    rel: &PermutationRelation,
    slots: &mut [u32],
    var: FieldVar,
    value: BabyBearUnit,
) -> Result<allocator::Set, Refused>
    ensures { OnSlots rel.now slots.old (Set (pair var.0 value.0)) (of_set result) rel.now slots.new }
{
    permutation::set_var(rel, slots, var, value)
}

// Set list.
pub fn set_vars(
    rel: &PermutationRelation,
    slots: &mut [u32],
    vars: &[u32],
    values: &[u32],
) -> SetVars
    ensures { OnSlots rel.now slots.old (SetList vars.now values.now) (of_set_vars result) rel.now slots.new }
{
    permutation::set_vars(rel, slots, vars, values)
}

// Record.
pub fn add_permutation(
    rel: &mut PermutationRelation,
    slots: &[u32],
    queries: &mut [u32],
    uses: &mut [u32],
    input: &[u32],
    output: &[u32],
) -> Result<(), Refused>
    ensures { OnQueries rel.old slots.now queries.old uses.old (Record input.now output.now)
        (of_outcome result) rel.new queries.new uses.new }
{
    recording::add_permutation(rel, slots, queries, uses, input, output)
}

// Mint.
pub fn allocate_permutation(
    rel: &mut PermutationRelation,
    slots: &mut [u32],
    queries: &mut [u32],
    uses: &mut [u32],
    input: &[u32],
) -> Result<u32, Refused>
    ensures { OnSlotsQueries rel.old slots.old queries.old uses.old (Mint input.now) (of_first result)
        rel.new slots.new queries.new uses.new }
{
    recording::allocate_permutation(rel, slots, queries, uses, input)
}

// A query withdrawn.
pub fn withdraw_query(
    rel: &mut PermutationRelation,
    slots: &[u32],
    queries: &mut [u32],
    uses: &mut [u32],
    i: u32,
) -> Result<(), Refused>
    ensures { OnQueries rel.old slots.now queries.old uses.old (WithdrawQuery i) (of_outcome result)
        rel.new queries.new uses.new }
{
    withdraw::withdraw_query(rel, slots, queries, uses, i)
}

// An equation withdrawn.
pub fn withdraw_equation(
    rel: &mut PermutationRelation,
    equations: &mut [u32],
    i: u32,
) -> Result<(), Refused>
    ensures { OnEquations rel.old equations.old (WithdrawEquation i) (of_outcome result) rel.new equations.new }
{
    withdraw::withdraw_equation(rel, equations, i)
}

// Equation.
pub fn add_equation(
    rel: &mut PermutationRelation,
    equations: &mut [u32],
    terms: &[Weighted],
    image: BabyBearUnit,
) -> Result<(), Refused>
    ensures { OnEquations rel.old equations.old (Equate terms.now image.0) (of_outcome result) rel.new equations.new }
{
    recording::add_equation(rel, equations, terms, image)
}

// Tickets.
pub fn set_tickets(rel: &PermutationRelation, slots: &mut [u32], text: &[u8]) -> SetTickets
    ensures { OnSlots rel.now slots.old (Tickets text.now) (of_set_tickets result) rel.now slots.new }
{
    tickets::set_tickets(rel, slots, text)
}
