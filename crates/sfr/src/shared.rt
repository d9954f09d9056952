// Relations on one allocator, for C. Both records are handed in and back by value; a refused call gives them back as they
// were.

ghost use Rattle.std.specs.Prelude.{◌≡◌, length};
ghost use Rattle.allocator.specs.Slots.{pair};
ghost use Rattle.allocator.specs.Assign.{Runs};
ghost use Rattle.expr.specs.Weighted.{terms_of};
ghost use Rattle.permutation.specs.Answers.{set_vars_of};
ghost use Rattle.tickets.specs.Tickets.{set_tickets_of};
ghost use Rattle.compile.specs.Gate.{gate_lent};
ghost use Rattle.sharing.specs.Shares.{on_allocator, shares};
ghost use Rattle.sharing.specs.Records.{first_on, outcome_on};
ghost use Rattle.sharing.specs.Opening.{opened_on, with_allocator, with_allocator_slots, with_allocator_uses};
ghost use Rattle.sharing.specs.Answers.{Does, DoesBoth, DoesAll};
ghost use Rattle.shared_vars.specs.Answers.{allocate_vars_on, allocate_vars_on_slots, set_var_on, set_var_on_slots, set_vars_on_run, set_tickets_on_run, value_of_on, is_allocated_on};
ghost use Rattle.shared_recording.specs.Answers.{add_permutation_on, add_permutation_on_queries, add_permutation_on_uses, allocate_permutation_on, allocate_permutation_on_slots, allocate_permutation_on_queries, allocate_permutation_on_uses, add_equation_on, add_equation_on_equations};
ghost use Rattle.shared_withdraw.specs.Answers.{withdraw_equation_on, withdraw_equation_on_equations, withdraw_query_on, withdraw_query_on_queries, withdraw_query_on_uses};
ghost use Rattle.shared_compile.specs.Gate.{CompilesOn};
ghost use Rattle.sfr.specs.Relation.{set_answer, tally_of, ticket_tally_of, value_answer, flag_of};
ghost use Rattle.sfr.specs.Gate.{compiled_answer};
ghost use Rattle.sfr.specs.Shared.{opened_answer, allocated_on_answer, recorded_on_answer};

use crate::gate::{SfrInstanceAnswer, compiled_answer};
use crate::relation::{
    SfrFlag, SfrSetAnswer, SfrTally, SfrTicketTally, SfrValue, flag_of, set_answer, tally_of,
    ticket_tally_of, value_answer,
};
use allocator::FieldVar;
use baby_bear::BabyBearUnit;
use expr::Weighted;
use limits::Refused;
use sharing::{SharedRelation, VarAllocator};

// A call's number with the records beside it; `first` is the relation's number for an opening, the first wire that an
// allocation answers, else 0.
#[repr(C)]
#[derive(Clone, Copy)]
pub struct SfrSharedAnswer {
    pub number: u32,
    pub first: u32,
    pub allocator: VarAllocator,
    pub relation: SharedRelation,
}

// What an opening answers, for C.
fn opened_answer(
    opened: Result<(u32, SharedRelation), Refused>,
    allocator: VarAllocator,
) -> SfrSharedAnswer
    ensures { result ≡ opened_answer (opened_on opened allocator) }
{
    match opened {
        Ok((index, relation)) => SfrSharedAnswer {
            number: 0,
            first: index,
            allocator,
            relation,
        },
        Err(refused) => SfrSharedAnswer {
            number: refused.0,
            first: 0,
            allocator,
            relation: SharedRelation {
                width: 0,
                queries: 0,
                equations: 0,
                words: 0,
                stray: 0,
                quota: 0,
                obtained: 0,
            },
        },
    }
}

// What an allocation answers, for C.
fn allocated_on_answer(
    first: Result<u32, Refused>,
    allocator: VarAllocator,
    relation: SharedRelation,
) -> SfrSharedAnswer
    ensures { result ≡ allocated_on_answer (first_on first allocator relation) }
{
    SfrSharedAnswer {
        number: limits::number(&first),
        first: first.unwrap_or(0),
        allocator,
        relation,
    }
}

// What a call answers that records, for C.
fn recorded_on_answer(
    outcome: Result<(), Refused>,
    allocator: VarAllocator,
    relation: SharedRelation,
) -> SfrSharedAnswer
    ensures { result ≡ recorded_on_answer allocator (outcome_on outcome relation) }
{
    SfrSharedAnswer {
        number: limits::number(&outcome),
        first: 0,
        allocator,
        relation,
    }
}

// A relation is opened, and its use counts become 0; the first makes wire 0, which has the value 0.
#[unsafe(no_mangle)]
pub extern "C" fn sfr_with_allocator(
    allocator: VarAllocator,
    width: u32,
    quota: u32,
    slots: &mut [u32],
    uses: &mut [u32],
) -> SfrSharedAnswer
    ensures { DoesBoth opened_answer (with_allocator allocator width quota slots.old uses.old)
        (with_allocator_slots allocator width slots.old uses.old)
        (with_allocator_uses allocator width slots.old uses.old) result slots.new uses.new }
{
    let mut allocator = allocator;
    let opened = sharing::with_allocator(&mut allocator, width, quota, slots, uses);
    opened_answer(opened, allocator)
}

// The next n wires for the relation, unassigned.
#[unsafe(no_mangle)]
pub extern "C" fn sfr_allocate_vars_on(
    allocator: VarAllocator,
    index: u32,
    rel: SharedRelation,
    slots: &mut [u32],
    n: u32,
) -> SfrSharedAnswer
    ensures { Does allocated_on_answer (allocate_vars_on allocator index rel slots.old n) (allocate_vars_on_slots allocator index rel slots.old n) result slots.new }
{
    let mut allocator = allocator;
    let mut rel = rel;
    let first = shared_vars::allocate_vars_on(&mut allocator, index, &mut rel, slots, n);
    allocated_on_answer(first, allocator, rel)
}

// A wire is assigned its value.
#[unsafe(no_mangle)]
pub extern "C" fn sfr_set_var_on(
    allocator: VarAllocator,
    index: u32,
    rel: SharedRelation,
    slots: &mut [u32],
    var: u32,
    value: u32,
) -> SfrSetAnswer
    ensures { Does set_answer (set_var_on allocator index rel slots.old (pair var value)) (set_var_on_slots allocator index rel slots.old (pair var value)) result slots.new }
{
    set_answer(shared_vars::set_var_on(
        &allocator,
        index,
        &rel,
        slots,
        FieldVar(var),
        BabyBearUnit(value),
    ))
}

// Wires are assigned values pair by pair, up to the first pair that is refused.
#[unsafe(no_mangle)]
pub extern "C" fn sfr_set_vars_on(
    allocator: VarAllocator,
    index: u32,
    rel: SharedRelation,
    slots: &mut [u32],
    vars: &[u32],
    values: &[u32],
) -> SfrTally
    ensures { Runs (λ run. tally_of (set_vars_of run)) (set_vars_on_run allocator index rel slots.old vars.now values.now) result slots.new }
{
    tally_of(shared_vars::set_vars_on(&allocator, index, &rel, slots, vars, values))
}

// Wires are assigned the steps of ticket lines, up to the first line that is refused.
#[unsafe(no_mangle)]
pub extern "C" fn sfr_set_tickets_on(
    allocator: VarAllocator,
    index: u32,
    rel: SharedRelation,
    slots: &mut [u32],
    text: &[u8],
) -> SfrTicketTally
    ensures { Runs (λ run. ticket_tally_of (set_tickets_of run)) (set_tickets_on_run allocator index rel slots.old text.now) result slots.new }
{
    ticket_tally_of(shared_vars::set_tickets_on(&allocator, index, &rel, slots, text))
}

// A query of the relation from input to output wires.
#[unsafe(no_mangle)]
pub extern "C" fn sfr_add_permutation_on(
    allocator: VarAllocator,
    index: u32,
    rel: SharedRelation,
    slots: &[u32],
    queries: &mut [u32],
    uses: &mut [u32],
    input: &[u32],
    output: &[u32],
) -> SfrSharedAnswer
    ensures { DoesBoth (recorded_on_answer allocator)
        (add_permutation_on allocator index rel (length slots.now) queries.old uses.old input.now output.now)
        (add_permutation_on_queries allocator index rel (length slots.now) queries.old uses.old input.now output.now)
        (add_permutation_on_uses allocator index rel (length slots.now) queries.old uses.old input.now output.now)
        result queries.new uses.new }
{
    let mut rel = rel;
    let outcome = shared_recording::add_permutation_on(
        &allocator, index, &mut rel, slots, queries, uses, input, output,
    );
    recorded_on_answer(outcome, allocator, rel)
}

// A query of the relation from input wires to as many new ones.
#[unsafe(no_mangle)]
pub extern "C" fn sfr_allocate_permutation_on(
    allocator: VarAllocator,
    index: u32,
    rel: SharedRelation,
    slots: &mut [u32],
    queries: &mut [u32],
    uses: &mut [u32],
    input: &[u32],
) -> SfrSharedAnswer
    ensures { DoesAll allocated_on_answer (allocate_permutation_on allocator index rel slots.old queries.old uses.old input.now)
        (allocate_permutation_on_slots allocator index rel slots.old queries.old uses.old input.now)
        (allocate_permutation_on_queries allocator index rel slots.old queries.old uses.old input.now)
        (allocate_permutation_on_uses allocator index rel slots.old queries.old uses.old input.now)
        result slots.new queries.new uses.new }
{
    let mut allocator = allocator;
    let mut rel = rel;
    let first = shared_recording::allocate_permutation_on(
        &mut allocator,
        index,
        &mut rel,
        slots,
        queries,
        uses,
        input,
    );
    allocated_on_answer(first, allocator, rel)
}

// Query i of the relation withdrawn: later ones move down.
#[unsafe(no_mangle)]
pub extern "C" fn sfr_withdraw_query_on(
    allocator: VarAllocator,
    index: u32,
    rel: SharedRelation,
    slots: &[u32],
    queries: &mut [u32],
    uses: &mut [u32],
    i: u32,
) -> SfrSharedAnswer
    ensures { DoesBoth (recorded_on_answer allocator) (withdraw_query_on allocator index rel (length slots.now) queries.old uses.old i)
        (withdraw_query_on_queries allocator index rel (length slots.now) queries.old uses.old i)
        (withdraw_query_on_uses allocator index rel (length slots.now) queries.old uses.old i)
        result queries.new uses.new }
{
    let mut rel = rel;
    let outcome = shared_withdraw::withdraw_query_on(
        &allocator, index, &mut rel, slots, queries, uses, i,
    );
    recorded_on_answer(outcome, allocator, rel)
}

// An equation of the relation: the sum of the terms is the image.
#[unsafe(no_mangle)]
pub extern "C" fn sfr_add_equation_on(
    allocator: VarAllocator,
    index: u32,
    rel: SharedRelation,
    equations: &mut [u32],
    terms: &[Weighted],
    image: u32,
) -> SfrSharedAnswer
    ensures { Does (recorded_on_answer allocator) (add_equation_on allocator index rel equations.old (terms_of terms.now) image)
        (add_equation_on_equations allocator index rel equations.old (terms_of terms.now) image) result equations.new }
{
    let mut rel = rel;
    let outcome = shared_recording::add_equation_on(
        &allocator,
        index,
        &mut rel,
        equations,
        terms,
        BabyBearUnit(image),
    );
    recorded_on_answer(outcome, allocator, rel)
}

// Equation i of the relation withdrawn: later ones move down.
#[unsafe(no_mangle)]
pub extern "C" fn sfr_withdraw_equation_on(
    allocator: VarAllocator,
    index: u32,
    rel: SharedRelation,
    equations: &mut [u32],
    i: u32,
) -> SfrSharedAnswer
    ensures { Does (recorded_on_answer allocator) (withdraw_equation_on allocator index rel equations.old i)
        (withdraw_equation_on_equations allocator index rel equations.old i) result equations.new }
{
    let mut rel = rel;
    let outcome = shared_withdraw::withdraw_equation_on(&allocator, index, &mut rel, equations, i);
    recorded_on_answer(outcome, allocator, rel)
}

// The value of a wire, if it has one.
#[unsafe(no_mangle)]
pub extern "C" fn sfr_value_of_on(
    allocator: VarAllocator,
    index: u32,
    rel: SharedRelation,
    slots: &[u32],
    var: u32,
) -> SfrValue
    ensures { result ≡ value_answer (value_of_on allocator index rel slots.now var) }
{
    value_answer(shared_vars::value_of_on(&allocator, index, &rel, slots, FieldVar(var)))
}

// Is the wire allocated, by any relation?
#[unsafe(no_mangle)]
pub extern "C" fn sfr_is_allocated_on(
    allocator: VarAllocator,
    index: u32,
    rel: SharedRelation,
    var: u32,
) -> SfrFlag
    ensures { result ≡ flag_of (is_allocated_on allocator index rel var) }
{
    flag_of(shared_vars::is_allocated_on(&allocator, index, &rel, FieldVar(var)))
}

// The gate: the relation becomes an instance, and its publics are written.
#[unsafe(no_mangle)]
pub extern "C" fn sfr_compile_on(
    allocator: VarAllocator,
    index: u32,
    rel: SharedRelation,
    label: &[u8],
    slots: &[u32],
    queries: &[u32],
    equations: &[u32],
    uses: &[u32],
    publics: &mut [u32],
    scratch: &mut [u32],
) -> SfrInstanceAnswer
    ensures { CompilesOn compiled_answer (shares allocator index rel)
        (gate_lent (on_allocator allocator rel) label.now slots.now queries.now equations.now
        uses.now (length publics.old) (length scratch.old)) result publics.new scratch.new }
{
    compiled_answer(shared_compile::compile_on(
        &allocator, index, &rel, label, slots, queries, equations, uses, publics, scratch,
    ))
}
