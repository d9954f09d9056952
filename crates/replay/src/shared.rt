// Operation 30: openings, calls and gates of relations on a shared allocator.
//
// A case is one of operation 10 to 16, 18, 19, 27, 28 or 31 with more numbers: behind the record, whose wires are the
// allocator's, come the relation's number, how many are opened, its quota, what it obtained, and the operation.

use crate::answer::{Answer, count};
use crate::operation::Operation;
use crate::sample::{Case, WORDS};
use allocator::FieldVar;
use baby_bear::BabyBearUnit;

// 10: as 10; the number, how many lines were accepted, how many of those were fresh, the slots.
fn set_tickets_on(case: &Case, slots: &mut [u32]) -> Answer {
    let given = case.given();
    let set = shared_vars::set_tickets_on(
        &given.allocator(),
        given.index(),
        &given.shared_relation(),
        slots,
        case.text(),
    );
    Answer::from(set.outcome)
        .with_value(count(set.accepted))
        .with_third(count(set.fresh))
}

// 11: quota, width, allocator, slots, use store; the number, the relation's number or 0, both records, both stores.
fn with_allocator(case: &Case, slots: &mut [u32]) -> Answer {
    let mut buffer = [0; WORDS];
    let uses = case.second().lend(&mut buffer);
    let given = case.given();
    let mut allocator = given.allocator();
    let opened = sharing::with_allocator(&mut allocator, given.width(), given.x(), slots, uses);
    let answer = match opened {
        Ok((index, relation)) => Answer::of(0).with_value(index).with_shared(&relation),
        Err(refused) => Answer::of(refused.0),
    };
    answer
        .with_allocator(&allocator)
        .with_rest(case.second().is_left(uses))
}

// 12: as 12; the number, the first wire or 0, both records, the slots.
fn allocate_vars_on(case: &Case, slots: &mut [u32]) -> Answer {
    let given = case.given();
    let mut allocator = given.allocator();
    let mut relation = given.shared_relation();
    let first = shared_vars::allocate_vars_on(
        &mut allocator,
        given.index(),
        &mut relation,
        slots,
        given.x(),
    );
    Answer::from(first)
        .with_allocator(&allocator)
        .with_shared(&relation)
}

// 13: as 13; the number, 0, 1 where it is fresh, the slots.
fn set_var_on(case: &Case, slots: &mut [u32]) -> Answer {
    let given = case.given();
    Answer::from(shared_vars::set_var_on(
        &given.allocator(),
        given.index(),
        &given.shared_relation(),
        slots,
        FieldVar(given.x()),
        BabyBearUnit(given.y()),
    ))
}

// 14: as 14; the number, how many pairs were accepted, how many of those were fresh, the slots.
fn set_vars_on(case: &Case, slots: &mut [u32]) -> Answer {
    let given = case.given();
    let set = shared_vars::set_vars_on(
        &given.allocator(),
        given.index(),
        &given.shared_relation(),
        slots,
        case.one(),
        case.two(),
    );
    Answer::from(set.outcome)
        .with_value(set.accepted)
        .with_third(set.fresh)
}

// 15: as 15; the number, both records, queries and use store.
fn add_permutation_on(case: &Case, queries: &mut [u32]) -> Answer {
    let mut buffer = [0; WORDS];
    let uses = case.second().lend(&mut buffer);
    let given = case.given();
    let allocator = given.allocator();
    let mut relation = given.shared_relation();
    let recorded = shared_recording::add_permutation_on(
        &allocator,
        given.index(),
        &mut relation,
        case.three(),
        queries,
        uses,
        case.one(),
        case.two(),
    );
    Answer::from(recorded)
        .with_allocator(&allocator)
        .with_shared(&relation)
        .with_rest(case.second().is_left(uses))
}

// 16: as 16; the number, the first new wire or 0, both records, the three stores.
fn allocate_permutation_on(case: &Case, slots: &mut [u32]) -> Answer {
    let mut buffer = [0; WORDS];
    let mut buffer2 = [0; WORDS];
    let queries = case.second().lend(&mut buffer);
    let uses = case.third().lend(&mut buffer2);
    let given = case.given();
    let mut allocator = given.allocator();
    let mut relation = given.shared_relation();
    let first = shared_recording::allocate_permutation_on(
        &mut allocator,
        given.index(),
        &mut relation,
        slots,
        queries,
        uses,
        case.one(),
    );
    Answer::from(first)
        .with_allocator(&allocator)
        .with_shared(&relation)
        .with_rest(case.second().is_left(queries) && case.third().is_left(uses))
}

// 27: as 27; the number, both records, queries and use store.
fn withdraw_query_on(case: &Case, queries: &mut [u32]) -> Answer {
    let mut buffer = [0; WORDS];
    let uses = case.second().lend(&mut buffer);
    let given = case.given();
    let allocator = given.allocator();
    let mut relation = given.shared_relation();
    let withdrawn = shared_withdraw::withdraw_query_on(
        &allocator,
        given.index(),
        &mut relation,
        case.one(),
        queries,
        uses,
        given.x(),
    );
    Answer::from(withdrawn)
        .with_allocator(&allocator)
        .with_shared(&relation)
        .with_rest(case.second().is_left(uses))
}

// 28: as 28; the number, both records, the equations.
fn withdraw_equation_on(case: &Case, equations: &mut [u32]) -> Answer {
    let given = case.given();
    let allocator = given.allocator();
    let mut relation = given.shared_relation();
    let withdrawn = shared_withdraw::withdraw_equation_on(
        &allocator,
        given.index(),
        &mut relation,
        equations,
        given.x(),
    );
    Answer::from(withdrawn)
        .with_allocator(&allocator)
        .with_shared(&relation)
}

// 18: as 18; the number, the value or 0, 1 where there is one.
fn value_of_on(case: &Case) -> Answer {
    let given = case.given();
    Answer::from(shared_vars::value_of_on(
        &given.allocator(),
        given.index(),
        &given.shared_relation(),
        case.one(),
        FieldVar(given.x()),
    ))
}

// 19: as 19; the number, 1 where the wire is allocated.
fn is_allocated_on(case: &Case) -> Answer {
    let given = case.given();
    Answer::from(shared_vars::is_allocated_on(
        &given.allocator(),
        given.index(),
        &given.shared_relation(),
        FieldVar(given.x()),
    ))
}

// 31: as 31; the number, the instance's record, publics, scratch.
fn compile_on(case: &Case, publics: &mut [u32]) -> Answer {
    let mut buffer = [0; WORDS];
    let scratch = case.second().lend(&mut buffer);
    let given = case.given();
    let made = shared_compile::compile_on(
        &given.allocator(),
        given.index(),
        &given.shared_relation(),
        case.text(),
        case.one(),
        case.two(),
        case.three(),
        case.four(),
        publics,
        scratch,
    );
    Answer::from(made).with_rest(words::all_below(scratch, 1))
}

// A call on a shared allocator, by the operation that it is of a single relation.
pub(crate) fn call(case: &Case, first: &mut [u32]) -> Answer {
    match case.given().operation() {
        Operation::SetTickets => set_tickets_on(case, first),
        Operation::NewRelation => with_allocator(case, first),
        Operation::AllocateVars => allocate_vars_on(case, first),
        Operation::SetVar => set_var_on(case, first),
        Operation::SetVars => set_vars_on(case, first),
        Operation::AddPermutation => add_permutation_on(case, first),
        Operation::AllocatePermutation => allocate_permutation_on(case, first),
        Operation::ValueOf => value_of_on(case),
        Operation::IsAllocated => is_allocated_on(case),
        Operation::WithdrawQuery => withdraw_query_on(case, first),
        Operation::WithdrawEquation => withdraw_equation_on(case, first),
        _ => compile_on(case, first),
    }
}
