// An equation or a query withdrawn from a relation by its number, counted from 0 (document 02's R-6).
//
// Later ones move down by one and the freed words become 0. A call changes nothing where a question says no. Every open
// function answers on every input.

#![tactic(auto, unfolding(limits::specs::Questions::ask, limits::specs::Questions::first_of_two))]

ghost use Rattle.std.specs.Prelude.{◌≡◌, ◌<◌, [], ◌∷◌, ◌++◌, ltb};
ghost use Rattle.limits.specs.Outcome.{as_is, answer_of, outcome_of};
ghost use Rattle.limits.specs.Questions.{ask, first_no, question};
ghost use Rattle.limits.specs.Asks.{store_asks};
ghost use Rattle.expr.specs.Equation.{equations_end, ends_right};
ghost use Rattle.permutation.specs.Records.{recorded};
ghost use Rattle.permutation.specs.Relation.{relation_asks, queries_asks};
ghost use Rattle.recording.specs.Relation.{add_equation_sizes};
ghost use Rattle.withdraw.specs.Effects.{WithdrawsEquation, WithdrawsQuery};

use limits::Refused;
use permutation::PermutationRelation;

// The questions of an equation's withdrawal before its walk: 1, 2, 45.
fn ask_withdraw_equation(rel: &PermutationRelation, len: usize, i: u32) -> Result<(), Refused>
    ensures { result ≡ outcome_of (first_no (add_equation_sizes rel.now len ++ (question 45 (ltb i rel.now.equations) ∷ []))) }
{
    recording::ask_equations(rel, len)?;
    limits::ask(45, i < rel.equations)
}

// Question 11, whether n equations end exactly at the end of the words; then where equation i begins. The walk over the
// equations stops at equation i for its place, and goes on from there.
fn ask_place(held: &[u32], n: u32, i: u32) -> Result<usize, Refused>
    requires { i < n }
    ensures { result ≡ answer_of (ask 11 (ends_right n held.now)) (equations_end i held.now) }
{
    let at = strike::end_within(held, i).ok_or(Refused(11))?;
    let rest = &held[at..];
    limits::ask(11, strike::end_within(rest, n - i) == Some(rest.len()))?;
    Ok(at)
}

// Withdraw equation i. Questions 1, 2, 45, 11.
pub fn withdraw_equation(
    rel: &mut PermutationRelation,
    equations: &mut [u32],
    i: u32,
) -> Result<(), Refused>
    ensures { WithdrawsEquation as_is rel.old equations.old i (recorded result rel.new) equations.new }
{
    ask_withdraw_equation(rel, equations.len(), i)?;
    let used = rel.words as usize;
    let held = held::held_words(equations, used);
    let at = ask_place(held, rel.equations, i)?;
    let size = held::size_at(held, at);
    strike::strike_words(equations, at, size, used);
    rel.equations -= 1;
    rel.words -= size as u32;
    Ok(())
}

// The questions of a query's withdrawal before its counts: 1, 2, 45.
fn ask_withdraw_query(
    rel: &PermutationRelation,
    slots: usize,
    room: usize,
    uses: usize,
    i: u32,
) -> Result<(), Refused>
    ensures { result ≡ outcome_of (first_no ((relation_asks rel.now slots ++ (queries_asks rel.now room ++ store_asks uses))
        ++ (question 45 (ltb i rel.now.queries) ∷ []))) }
{
    recording::ask_queries(rel, slots, room, uses)?;
    limits::ask(45, i < rel.queries)
}

// Withdraw query i. Questions 1, 2, 45, 11, 10.
pub fn withdraw_query(
    rel: &mut PermutationRelation,
    slots: &[u32],
    queries: &mut [u32],
    uses: &mut [u32],
    i: u32,
) -> Result<(), Refused>
    ensures { WithdrawsQuery as_is rel.old slots.now queries.old uses.old i (recorded result rel.new) queries.new uses.new }
{
    ask_withdraw_query(rel, slots.len(), queries.len(), uses.len(), i)?;
    let width = rel.width as usize;
    let size = width + width;
    let at = i as usize * size;
    let cells = &queries[at..at + size];
    let stray = uses::count_cells(true, slots.len(), uses, rel.stray, cells, &[], Ok(()))?;
    strike::strike_words(queries, at, size, rel.queries as usize * size);
    rel.queries -= 1;
    rel.stray = stray;
    Ok(())
}
