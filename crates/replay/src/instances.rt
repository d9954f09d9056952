// Operations 31 to 37: the gate, an instance's bytes written and read, a wire's value in publics, the heading, and the
// check.

use crate::answer::{Answer, count};
use crate::sample::{Case, WORDS};
use crate::traces::{BYTES, DIRT, written};
use allocator::FieldVar;
use decoding::{InstanceRead, Span};
use limits::Refused;

// 31: record, label, publics, slots, queries, equations, use store, scratch; the number, the instance's record, publics, scratch.
pub(crate) fn compile(case: &Case, publics: &mut [u32]) -> Answer {
    let mut buffer = [0; WORDS];
    let scratch = case.second().lend(&mut buffer);
    let made = compile::compile(
        &case.given().relation(),
        case.text(),
        case.one(),
        case.two(),
        case.three(),
        case.four(),
        publics,
        scratch,
    );
    Answer::from(made).with_rest(words::all_below(scratch, 1))
}

// 32: record, label, publics, queries, equations, output; the number, how many bytes were written, the output.
pub(crate) fn instance_to_bytes(case: &Case) -> Answer {
    let expected = case.other();
    let mut buffer = [DIRT; BYTES];
    let output = &mut buffer[..expected.len().min(BYTES)];
    let len = encoding::instance_to_bytes(
        case.given().instance(),
        case.text(),
        case.one(),
        case.two(),
        case.three(),
        output,
    );
    written(len, expected == &*output)
}

// The part of the bytes that lies there; none where they end before it.
fn part(bytes: &[u8], span: Span) -> &[u8] {
    bytes
        .get(span.at..)
        .and_then(|behind| behind.get(..span.len))
        .unwrap_or(&[])
}

// The number, the label's length, the record, and whether the label and the other stores are as the sample has them.
fn read_answer(case: &Case, read: Result<InstanceRead, Refused>, stores: bool) -> Answer {
    match read {
        Ok(file) => Answer::of(0)
            .with_value(count(file.label.len))
            .with_instance(&file.instance)
            .with_rest(stores && case.other() == part(case.text(), file.label)),
        Err(refused) => Answer::of(refused.0).with_rest(stores && case.other().is_empty()),
    }
}

// 33, and strictly 37: width, bytes, publics, queries, equations, scratch; the number, the label, the record, the four
// stores.
fn read(case: &Case, publics: &mut [u32], strict: bool) -> Answer {
    let mut a = [0; WORDS];
    let mut b = [0; WORDS];
    let mut c = [0; WORDS];
    let queries = case.second().lend(&mut a);
    let equations = case.third().lend(&mut b);
    let scratch = case.fourth().lend(&mut c);
    let width = case.given().width();
    let bytes = case.text();
    let read = if strict {
        decoding::strict_instance_from_bytes_at(width, bytes, publics, queries, equations, scratch)
    } else {
        decoding::instance_from_bytes_at(width, bytes, publics, queries, equations, scratch)
    };
    let same = case.second().is_left(queries)
        && case.third().is_left(equations)
        && words::all_below(scratch, 1);
    read_answer(case, read, same)
}

// 33: the plain read.
pub(crate) fn instance_from_bytes(case: &Case, publics: &mut [u32]) -> Answer {
    read(case, publics, false)
}

// 37: the strict one.
pub(crate) fn strict_instance_from_bytes(case: &Case, publics: &mut [u32]) -> Answer {
    read(case, publics, true)
}

// 34: wire, record, publics; the number, the value or 0, 1 where there is one.
pub(crate) fn public_value(case: &Case) -> Answer {
    let given = case.given();
    let var = FieldVar(given.x());
    Answer::from(instance::public_value(&given.instance(), case.one(), var))
}

// 35: label, name; 0, the heading's length, the heading.
pub(crate) fn heading(case: &Case) -> Answer {
    let heading = instance::heading(case.text(), case.other());
    Answer::of(0)
        .with_value(count(heading.len()))
        .with_third(u32::from(heading != case.one_text()))
}

// 36: steps, rounds, record, label, scratch, publics, queries, equations, trace, parameters; the number, scratch.
pub(crate) fn is_witness_valid(case: &Case, scratch: &mut [u32]) -> Answer {
    let given = case.given();
    Answer::from(validity::is_witness_valid(
        given.instance(),
        case.text(),
        case.one(),
        case.two(),
        case.three(),
        given.x(),
        case.four(),
        given.y(),
        case.five(),
        scratch,
    ))
}
