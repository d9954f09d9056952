// Calls on a relation, for C. The record is handed in and back by value; a refused call gives it back as it was. What a
// call answers becomes a struct here: the documents' number, and after a refusal zeros for the value that there is not.

ghost use Rattle.std.specs.Prelude.{◌≡◌};
ghost use Rattle.allocator.specs.Slots.{pair};
ghost use Rattle.expr.specs.Weighted.{terms_of, scale, scale_terms};
ghost use Rattle.limits.specs.Outcome.{outcome_number};
ghost use Rattle.permutation.specs.Records.{made, recorded, allocated};
ghost use Rattle.permutation.specs.Answers.{value_of, is_allocated};
ghost use Rattle.permutation.specs.Effects.{MakesRelation, AllocatesVars, SetsVar, SetsVars};
ghost use Rattle.recording.specs.Effects.{AddsPermutation, AllocatesPermutation, AddsEquation};
ghost use Rattle.withdraw.specs.Effects.{WithdrawsEquation, WithdrawsQuery};
ghost use Rattle.tickets.specs.Tickets.{SetsTickets};
ghost use Rattle.sfr.specs.Relation.{recorded_answer, allocated_answer, set_answer, tally_of, ticket_tally_of, value_answer, flag_of};

use allocator::{FieldVar, Set};
use baby_bear::BabyBearUnit;
use expr::Weighted;
use limits::Refused;
use permutation::{PermutationRelation, SetVars};
use tickets::SetTickets;

// A call's number with the record beside it; `first` is the first wire that an allocation answers, else 0.
#[repr(C)]
#[derive(Clone, Copy)]
pub struct SfrRelationAnswer {
    pub number: u32,
    pub first: u32,
    pub relation: PermutationRelation,
}

// A set's number, and whether it is fresh.
#[repr(C)]
#[derive(Clone, Copy)]
pub struct SfrSetAnswer {
    pub number: u32,
    pub fresh: bool,
}

// A set list's number, how many of its first pairs were accepted, and how many of those were fresh.
#[repr(C)]
#[derive(Clone, Copy)]
pub struct SfrTally {
    pub number: u32,
    pub accepted: u32,
    pub fresh: u32,
}

// A ticket text's number, how many of its first lines were accepted, and how many of those were fresh.
#[repr(C)]
#[derive(Clone, Copy)]
pub struct SfrTicketTally {
    pub number: u32,
    pub accepted: usize,
    pub fresh: usize,
}

// A value, where there is one.
#[repr(C)]
#[derive(Clone, Copy)]
pub struct SfrValue {
    pub number: u32,
    pub some: bool,
    pub value: u32,
}

// Yes or no; no after a refusal.
#[repr(C)]
#[derive(Clone, Copy)]
pub struct SfrFlag {
    pub number: u32,
    pub yes: bool,
}

// What a call answers that makes a relation, for C.
fn made_answer(rel: Result<PermutationRelation, Refused>) -> SfrRelationAnswer
    ensures { result ≡ recorded_answer (made rel) }
{
    match rel {
        Ok(relation) => SfrRelationAnswer {
            number: 0,
            first: 0,
            relation,
        },
        Err(refused) => SfrRelationAnswer {
            number: refused.0,
            first: 0,
            relation: PermutationRelation {
                width: 0,
                vars: 0,
                queries: 0,
                equations: 0,
                words: 0,
                stray: 0,
            },
        },
    }
}

// What a call answers that has no value to give, for C.
fn recorded_answer(outcome: Result<(), Refused>, relation: PermutationRelation) -> SfrRelationAnswer
    ensures { result ≡ recorded_answer (recorded outcome relation) }
{
    SfrRelationAnswer {
        number: limits::number(&outcome),
        first: 0,
        relation,
    }
}

// What an allocation answers, for C.
fn allocated_answer(first: Result<u32, Refused>, relation: PermutationRelation) -> SfrRelationAnswer
    ensures { result ≡ allocated_answer (allocated first relation) }
{
    SfrRelationAnswer {
        number: limits::number(&first),
        first: first.unwrap_or(0),
        relation,
    }
}

// A relation with wire 0 alone, which has the value 0; its use counts become 0.
#[unsafe(no_mangle)]
pub extern "C" fn sfr_new_relation(
    width: u32,
    slots: &mut [u32],
    uses: &mut [u32],
) -> SfrRelationAnswer
    ensures { MakesRelation recorded_answer width slots.old uses.old result slots.new uses.new }
{
    made_answer(permutation::new_relation(width, slots, uses))
}

// The next n wires, unassigned.
#[unsafe(no_mangle)]
pub extern "C" fn sfr_allocate_vars(
    rel: PermutationRelation,
    slots: &mut [u32],
    n: u32,
) -> SfrRelationAnswer
    ensures { AllocatesVars allocated_answer rel slots.old n result slots.new }
{
    let mut rel = rel;
    let first = permutation::allocate_vars(&mut rel, slots, n);
    allocated_answer(first, rel)
}

// What a set answers, for C.
pub(crate) fn set_answer(set: Result<Set, Refused>) -> SfrSetAnswer
    ensures { result ≡ set_answer set }
{
    SfrSetAnswer {
        number: limits::number(&set),
        fresh: matches!(set, Ok(Set::Fresh)),
    }
}

// A wire is assigned its value.
#[unsafe(no_mangle)]
pub extern "C" fn sfr_set_var(
    rel: PermutationRelation,
    slots: &mut [u32],
    var: u32,
    value: u32,
) -> SfrSetAnswer
    ensures { SetsVar set_answer rel slots.old (pair var value) result slots.new }
{
    set_answer(permutation::set_var(&rel, slots, FieldVar(var), BabyBearUnit(value)))
}

// What a set list answers, for C.
pub(crate) fn tally_of(run: SetVars) -> SfrTally
    ensures { result ≡ tally_of run }
{
    SfrTally {
        number: limits::number(&run.outcome),
        accepted: run.accepted,
        fresh: run.fresh,
    }
}

// Wires are assigned values pair by pair, up to the first pair that is refused.
#[unsafe(no_mangle)]
pub extern "C" fn sfr_set_vars(
    rel: PermutationRelation,
    slots: &mut [u32],
    vars: &[u32],
    values: &[u32],
) -> SfrTally
    ensures { SetsVars tally_of rel slots.old vars.now values.now result slots.new }
{
    tally_of(permutation::set_vars(&rel, slots, vars, values))
}

// What a ticket text answers, for C.
pub(crate) fn ticket_tally_of(run: SetTickets) -> SfrTicketTally
    ensures { result ≡ ticket_tally_of run }
{
    SfrTicketTally {
        number: limits::number(&run.outcome),
        accepted: run.accepted,
        fresh: run.fresh,
    }
}

// Wires are assigned the steps of ticket lines, up to the first line that is refused.
#[unsafe(no_mangle)]
pub extern "C" fn sfr_set_tickets(
    rel: PermutationRelation,
    slots: &mut [u32],
    text: &[u8],
) -> SfrTicketTally
    ensures { SetsTickets ticket_tally_of rel slots.old text.now result slots.new }
{
    ticket_tally_of(tickets::set_tickets(&rel, slots, text))
}

// A query from input to output wires.
#[unsafe(no_mangle)]
pub extern "C" fn sfr_add_permutation(
    rel: PermutationRelation,
    slots: &[u32],
    queries: &mut [u32],
    uses: &mut [u32],
    input: &[u32],
    output: &[u32],
) -> SfrRelationAnswer
    ensures { AddsPermutation recorded_answer rel slots.now queries.old uses.old input.now output.now
        result queries.new uses.new }
{
    let mut rel = rel;
    let outcome = recording::add_permutation(&mut rel, slots, queries, uses, input, output);
    recorded_answer(outcome, rel)
}

// A query from input wires to as many new ones.
#[unsafe(no_mangle)]
pub extern "C" fn sfr_allocate_permutation(
    rel: PermutationRelation,
    slots: &mut [u32],
    queries: &mut [u32],
    uses: &mut [u32],
    input: &[u32],
) -> SfrRelationAnswer
    ensures { AllocatesPermutation allocated_answer rel slots.old queries.old uses.old input.now
        result slots.new queries.new uses.new }
{
    let mut rel = rel;
    let first = recording::allocate_permutation(&mut rel, slots, queries, uses, input);
    allocated_answer(first, rel)
}

// Query i withdrawn: later ones move down.
#[unsafe(no_mangle)]
pub extern "C" fn sfr_withdraw_query(
    rel: PermutationRelation,
    slots: &[u32],
    queries: &mut [u32],
    uses: &mut [u32],
    i: u32,
) -> SfrRelationAnswer
    ensures { WithdrawsQuery recorded_answer rel slots.now queries.old uses.old i
        result queries.new uses.new }
{
    let mut rel = rel;
    let outcome = withdraw::withdraw_query(&mut rel, slots, queries, uses, i);
    recorded_answer(outcome, rel)
}

// An equation: the sum of the terms is the image.
#[unsafe(no_mangle)]
pub extern "C" fn sfr_add_equation(
    rel: PermutationRelation,
    equations: &mut [u32],
    terms: &[Weighted],
    image: u32,
) -> SfrRelationAnswer
    ensures { AddsEquation recorded_answer rel equations.old (terms_of terms.now) image result equations.new }
{
    let mut rel = rel;
    let outcome = recording::add_equation(&mut rel, equations, terms, BabyBearUnit(image));
    recorded_answer(outcome, rel)
}

// Equation i withdrawn: later ones move down.
#[unsafe(no_mangle)]
pub extern "C" fn sfr_withdraw_equation(
    rel: PermutationRelation,
    equations: &mut [u32],
    i: u32,
) -> SfrRelationAnswer
    ensures { WithdrawsEquation recorded_answer rel equations.old i result equations.new }
{
    let mut rel = rel;
    let outcome = withdraw::withdraw_equation(&mut rel, equations, i);
    recorded_answer(outcome, rel)
}

// Every weight of the list times the factor, or the list as it was.
#[unsafe(no_mangle)]
pub extern "C" fn sfr_scale(terms: &mut [Weighted], factor: u32) -> u32
    ensures { (result ≡ outcome_number (scale terms.old factor)) × (terms.new ≡ scale_terms terms.old factor) }
{
    limits::number(&expr::scale(terms, BabyBearUnit(factor)))
}

// What a look at a value answers, for C.
pub(crate) fn value_answer(value: Result<Option<u32>, Refused>) -> SfrValue
    ensures { result ≡ value_answer value }
{
    let held = value.unwrap_or(None);
    SfrValue {
        number: limits::number(&value),
        some: held.is_some(),
        value: held.unwrap_or(0),
    }
}

// The value of a wire of the relation, if it has one.
#[unsafe(no_mangle)]
pub extern "C" fn sfr_value_of(rel: PermutationRelation, slots: &[u32], var: u32) -> SfrValue
    ensures { result ≡ value_answer (value_of rel slots.now var) }
{
    value_answer(permutation::value_of(&rel, slots, FieldVar(var)))
}

// What a look whether a wire is allocated answers, for C.
pub(crate) fn flag_of(yes: Result<bool, Refused>) -> SfrFlag
    ensures { result ≡ flag_of yes }
{
    SfrFlag {
        number: limits::number(&yes),
        yes: yes.unwrap_or(false),
    }
}

// Is the wire one of the relation's?
#[unsafe(no_mangle)]
pub extern "C" fn sfr_is_allocated(rel: PermutationRelation, var: u32) -> SfrFlag
    ensures { result ≡ flag_of (is_allocated rel var) }
{
    flag_of(permutation::is_allocated(&rel, FieldVar(var)))
}
