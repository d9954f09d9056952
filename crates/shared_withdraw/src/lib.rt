// An equation or a query of relation `index` of an allocator withdrawn by its number (document 02's R-6).
//
// Each call puts the front of its questions, up to 42, and then does what the same call does to a relation alone that
// has the shared wire count for its own. Every open function answers on every input.

#![tactic(auto, unfolding(limits::specs::Questions::ask, limits::specs::Questions::first_of_two, crate::specs::Answers::withdraw_query_on_no))]

ghost use Rattle.std.specs.Prelude.{◌≡◌, length};
ghost use Rattle.limits.specs.Outcome.{as_is, outcome_of};
ghost use Rattle.sharing.specs.Records.{outcome_on};
ghost use Rattle.sharing.specs.Answers.{Does, DoesBoth};
ghost use Rattle.shared_withdraw.specs.Answers.{withdraw_query_on_no, withdraw_equation_on, withdraw_equation_on_equations, withdraw_query_on, withdraw_query_on_queries, withdraw_query_on_uses};

use limits::Refused;
use sharing::{SharedRelation, VarAllocator};

// Withdraw equation i of the relation. Questions 1, 2, 42, 45, 11.
pub fn withdraw_equation_on(
    allocator: &VarAllocator,
    index: u32,
    rel: &mut SharedRelation,
    equations: &mut [u32],
    i: u32,
) -> Result<(), Refused>
    ensures { Does as_is (withdraw_equation_on allocator.now index rel.old equations.old i)
        (withdraw_equation_on_equations allocator.now index rel.old equations.old i) (outcome_on result rel.new) equations.new }
{
    shared_recording::ask_equations_on(allocator, index, rel, equations.len())?;
    let mut alone = sharing::on_allocator(allocator, rel);
    withdraw::withdraw_equation(&mut alone, equations, i)?;
    sharing::record_on(rel, &alone);
    Ok(())
}

// The questions of a query's withdrawal up to 42.
fn ask_withdraw_query_on(
    allocator: &VarAllocator,
    index: u32,
    rel: &SharedRelation,
    slots: usize,
    queries: usize,
    uses: usize,
) -> Result<(), Refused>
    ensures { result ≡ outcome_of (withdraw_query_on_no allocator.now index rel.now slots queries uses) }
{
    shared_recording::ask_queries_on(allocator, rel, slots, queries, uses)?;
    sharing::ask_opened(allocator, index)
}

// Withdraw query i of the relation. Questions 1, 2, 42, 45, 11, 10.
pub fn withdraw_query_on(
    allocator: &VarAllocator,
    index: u32,
    rel: &mut SharedRelation,
    slots: &[u32],
    queries: &mut [u32],
    uses: &mut [u32],
    i: u32,
) -> Result<(), Refused>
    ensures { DoesBoth as_is (withdraw_query_on allocator.now index rel.old (length slots.now) queries.old uses.old i)
        (withdraw_query_on_queries allocator.now index rel.old (length slots.now) queries.old uses.old i)
        (withdraw_query_on_uses allocator.now index rel.old (length slots.now) queries.old uses.old i)
        (outcome_on result rel.new) queries.new uses.new }
{
    ask_withdraw_query_on(
        allocator,
        index,
        rel,
        slots.len(),
        queries.len(),
        uses.len(),
    )?;
    let mut alone = sharing::on_allocator(allocator, rel);
    withdraw::withdraw_query(&mut alone, slots, queries, uses, i)?;
    sharing::record_on(rel, &alone);
    Ok(())
}
