// Operations 10 to 16, 18, 19, 27 and 28: the calls on a relation.

use crate::answer::{Answer, count};
use crate::sample::{Case, WORDS};
use allocator::FieldVar;
use baby_bear::BabyBearUnit;

// 10: record, slots, text; the number, how many lines were accepted, how many of those were fresh, the slots.
pub(crate) fn set_tickets(case: &Case, slots: &mut [u32]) -> Answer {
    let set = tickets::set_tickets(&case.given().relation(), slots, case.text());
    Answer::from(set.outcome)
        .with_value(count(set.accepted))
        .with_third(count(set.fresh))
}

// 11: width, slots, use store; the number, the record, both stores.
pub(crate) fn new_relation(case: &Case, slots: &mut [u32]) -> Answer {
    let mut buffer = [0; WORDS];
    let uses = case.second().lend(&mut buffer);
    let made = permutation::new_relation(case.given().width(), slots, uses);
    Answer::from(made).with_rest(case.second().is_left(uses))
}

// 12: how many wires, record, slots; the number, the first of them or 0, the record, the slots.
pub(crate) fn allocate_vars(case: &Case, slots: &mut [u32]) -> Answer {
    let given = case.given();
    let mut relation = given.relation();
    let first = permutation::allocate_vars(&mut relation, slots, given.x());
    Answer::from(first).with_relation(&relation)
}

// 13: wire, unit, record, slots; the number, 0, 1 where it is fresh, the slots.
pub(crate) fn set_var(case: &Case, slots: &mut [u32]) -> Answer {
    let given = case.given();
    let var = FieldVar(given.x());
    let value = BabyBearUnit(given.y());
    Answer::from(permutation::set_var(&given.relation(), slots, var, value))
}

// 14: record, slots, wires, units; the number, how many pairs were accepted, how many of those were fresh, the slots.
pub(crate) fn set_vars(case: &Case, slots: &mut [u32]) -> Answer {
    let set = permutation::set_vars(&case.given().relation(), slots, case.one(), case.two());
    Answer::from(set.outcome)
        .with_value(set.accepted)
        .with_third(set.fresh)
}

// 15: record, slots, queries, use store, inputs, outputs; the number, the record, queries and use store.
pub(crate) fn add_permutation(case: &Case, queries: &mut [u32]) -> Answer {
    let mut buffer = [0; WORDS];
    let uses = case.second().lend(&mut buffer);
    let mut relation = case.given().relation();
    let recorded = recording::add_permutation(
        &mut relation,
        case.three(),
        queries,
        uses,
        case.one(),
        case.two(),
    );
    Answer::from(recorded)
        .with_relation(&relation)
        .with_rest(case.second().is_left(uses))
}

// 16: record, slots, queries, use store, inputs; the number, the first new wire or 0, the record, the three stores.
pub(crate) fn allocate_permutation(case: &Case, slots: &mut [u32]) -> Answer {
    let mut buffer = [0; WORDS];
    let mut buffer2 = [0; WORDS];
    let queries = case.second().lend(&mut buffer);
    let uses = case.third().lend(&mut buffer2);
    let mut relation = case.given().relation();
    let first = recording::allocate_permutation(&mut relation, slots, queries, uses, case.one());
    Answer::from(first).with_relation(&relation).with_rest(
        case.second().is_left(queries) && case.third().is_left(uses),
    )
}

// 27: number, record, slots, queries, use store; the number, the record, queries and use store.
pub(crate) fn withdraw_query(case: &Case, queries: &mut [u32]) -> Answer {
    let mut buffer = [0; WORDS];
    let uses = case.second().lend(&mut buffer);
    let given = case.given();
    let mut relation = given.relation();
    let withdrawn = withdraw::withdraw_query(&mut relation, case.one(), queries, uses, given.x());
    Answer::from(withdrawn)
        .with_relation(&relation)
        .with_rest(case.second().is_left(uses))
}

// 28: number, record, equations; the number, the record, the equations.
pub(crate) fn withdraw_equation(case: &Case, equations: &mut [u32]) -> Answer {
    let given = case.given();
    let mut relation = given.relation();
    let withdrawn = withdraw::withdraw_equation(&mut relation, equations, given.x());
    Answer::from(withdrawn).with_relation(&relation)
}

// 18: wire, record, slots; the number, the value or 0, 1 where there is one.
pub(crate) fn value_of(case: &Case) -> Answer {
    let given = case.given();
    let var = FieldVar(given.x());
    Answer::from(permutation::value_of(&given.relation(), case.one(), var))
}

// 19: wire, record; the number, 1 where the wire is allocated.
pub(crate) fn is_allocated(case: &Case) -> Answer {
    let given = case.given();
    let var = FieldVar(given.x());
    Answer::from(permutation::is_allocated(&given.relation(), var))
}
