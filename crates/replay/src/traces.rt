// Operations 21 to 26: the permutation and the way back through it, a trace's steps, and its bytes written and read.

use crate::answer::{Answer, count};
use crate::sample::Case;
use limits::Refused;
use witness::PermutationWitness;

// What a write holds before it: every byte, as in the Rust that wrote the sample.
pub(crate) const DIRT: u8 = 0xee;

// The longest output of a write.
pub(crate) const BYTES: usize = 2048;

// The number, the steps, the width.
fn traced(outcome: Result<(), Refused>, witness: &PermutationWitness) -> Answer {
    Answer::from(outcome)
        .with_value(witness.steps)
        .with_third(witness.width)
}

// 21: steps, rounds, width, trace, inputs, parameters; the number, the record, the trace.
pub(crate) fn evaluate_step(case: &Case, trace: &mut [u32]) -> Answer {
    let given = case.given();
    let mut witness = given.witness();
    let outcome = witness::evaluate_step(&mut witness, trace, case.one(), given.y(), case.two());
    traced(outcome, &witness)
}

// 22: steps, width, trace, inputs, outputs; the number, the record, the trace.
pub(crate) fn append_step(case: &Case, trace: &mut [u32]) -> Answer {
    let mut witness = case.given().witness();
    let outcome = witness::append_step(&mut witness, trace, case.one(), case.two());
    traced(outcome, &witness)
}

// The number, how many bytes were written, and whether the output is as the sample has it.
pub(crate) fn written(len: Result<usize, Refused>, same: bool) -> Answer {
    Answer::from(len.map(count)).with_third(u32::from(!same))
}

// 23: steps, width, trace, output; the number, how many bytes were written, the output.
pub(crate) fn witness_to_bytes(case: &Case) -> Answer {
    let given = case.given();
    let expected = case.text();
    let mut buffer = [DIRT; BYTES];
    let output = &mut buffer[..expected.len().min(BYTES)];
    let len = encoding::witness_to_bytes(given.width(), given.x(), case.one(), output);
    written(len, expected == &*output)
}

// 24: width, bytes, trace; the number, the steps, the trace.
pub(crate) fn witness_from_bytes(case: &Case, trace: &mut [u32]) -> Answer {
    Answer::from(decoding::witness_from_bytes(case.given().width(), case.text(), trace))
}

// 25: rounds, width, state, parameters; the number, the state.
pub(crate) fn permute(case: &Case, state: &mut [u32]) -> Answer {
    let given = case.given();
    Answer::from(permute::permute(given.width(), given.y(), case.one(), state))
}

// 26: rounds, width, a list for the input, parameters, output; the number, the list.
pub(crate) fn permute_inverse(case: &Case, input: &mut [u32]) -> Answer {
    let given = case.given();
    Answer::from(inverse::permute_inverse(given.width(), given.y(), case.one(), case.two(), input))
}
