// The witness builder: a trace recorded step by step (the source's `PermutationWitnessBuilder`).
//
// The record, width and step count, and the trace are lent. Each call puts its questions first and acts only where none
// says no, so a refusal changes nothing.

#![tactic(auto, unfolding(limits::specs::Questions::ask, limits::specs::Questions::first_of_two, crate::specs::Trace::append_step_no, crate::specs::Trace::input_no))]

ghost use Rattle.std.specs.Prelude.{◌≡◌, ◌++◌, ◌+◌, ◌≤◌, length};
ghost use Rattle.limits.specs.Outcome.{as_is, outcome_of};
ghost use Rattle.limits.specs.Questions.{first_no, on_yes};
ghost use Rattle.words.specs.Pieces.{words_of};
ghost use Rattle.permute.specs.Parameters.{permute_no};
ghost use Rattle.witness.specs.Trace.{trace_asks, input_no, append_step_no, traced, trace_with, evaluated_step};
ghost use Rattle.witness.specs.Trace.{AppendsStep, EvaluatesStep};

use limits::{P, Refused};

// Words that hold a state of any width: the greatest is 24.
const MAX_STATE: usize = 24;

// The record of a trace: 2 · width units per step.
#[repr(C)]
#[derive(Clone, Copy)]
pub struct PermutationWitness {
    pub width: u32,
    pub steps: u32,
}

// A step, written behind the steps that are there.
fn put_step(wit: &PermutationWitness, trace: &mut [u32], input: &[u32], output: &[u32])
    requires { (length input.now ≡ wit.now.width) × (length output.now ≡ wit.now.width)
        × (words_of wit.now.width (wit.now.steps + 1) ≤ length trace.old) }
    ensures { trace.new ≡ trace_with wit.now (input.now ++ output.now) trace.old }
{
    let w = wit.width as usize;
    let at = wit.steps as usize * (w + w);
    words::put(trace, at, input);
    words::put(trace, at + w, output);
}

// Questions 1 and 2 of a trace.
fn ask_trace(wit: &PermutationWitness, len: usize) -> Result<(), Refused>
    ensures { result ≡ outcome_of (first_no (trace_asks wit.now len)) }
{
    limits::ask_width(wit.width)?;
    words::ask_held(wit.width, wit.steps, len)
}

// The questions of a given step: 1, 2, 9, 4, 10.
fn ask_append_step(
    wit: &PermutationWitness,
    len: usize,
    input: &[u32],
    output: &[u32],
) -> Result<(), Refused>
    ensures { result ≡ outcome_of (append_step_no wit.now len input.now output.now) }
{
    ask_trace(wit, len)?;
    limits::ask_store(input.len())?;
    limits::ask_store(output.len())?;
    words::ask_halves(wit.width, 4, P, input, output)?;
    words::ask_one_more(wit.width, wit.steps, len)
}

// Record a step without evaluating the permutation (the source's `add_permutation`). Questions 1, 2, 9, 4, 10.
pub fn append_step(
    wit: &mut PermutationWitness,
    trace: &mut [u32],
    input: &[u32],
    output: &[u32],
) -> Result<(), Refused>
    ensures { AppendsStep as_is wit.old trace.old input.now output.now (traced result wit.new) trace.new }
{
    ask_append_step(wit, trace.len(), input, output)?;
    put_step(wit, trace, input, output);
    wit.steps += 1;
    Ok(())
}

// The questions of an evaluated step before its parameters are looked at: 1, 2, 9, 4.
fn ask_input(
    wit: &PermutationWitness,
    len: usize,
    input: &[u32],
    params: &[u32],
) -> Result<(), Refused>
    ensures { result ≡ outcome_of (input_no wit.now len input.now params.now) }
{
    ask_trace(wit, len)?;
    limits::ask_store(input.len())?;
    limits::ask_store(params.len())?;
    words::ask_half(wit.width, 4, P, input)
}

// Evaluate the permutation on the inputs and record the step (the source's `allocate_permutation`). Questions
// 1, 2, 9, 4, 17, 10. The outputs are the last w words of the new step. The evaluation puts 17 itself; where
// the trace has no room for a step it is put alone.
pub fn evaluate_step(
    wit: &mut PermutationWitness,
    trace: &mut [u32],
    input: &[u32],
    rounds: u32,
    params: &[u32],
) -> Result<(), Refused>
    ensures { EvaluatesStep as_is wit.old trace.old input.now rounds params.now (traced result wit.new) trace.new }
{
    ask_input(wit, trace.len(), input, params)?;
    match words::ask_one_more(wit.width, wit.steps, trace.len()) {
        Err(full) => {
            permute::ask_parameters(wit.width, rounds, params)?;
            Err(full)
        }
        Ok(()) => {
            let w = wit.width as usize;
            let mut state = [0u32; MAX_STATE];
            put_evaluation(wit, trace, input, rounds, params, &mut state[0..w])?;
            wit.steps += 1;
            Ok(())
        }
    }
}

// The inputs and what they are turned into, written as a step; `state` is room for the evaluation. Question 17
// is the only one that can still say no.
fn put_evaluation(
    wit: &PermutationWitness,
    trace: &mut [u32],
    input: &[u32],
    rounds: u32,
    params: &[u32],
    state: &mut [u32],
) -> Result<(), Refused>
    requires { (length state.old ≡ wit.now.width) × (length input.now ≡ wit.now.width)
        × (words_of wit.now.width (wit.now.steps + 1) ≤ length trace.old) }
    ensures { (result ≡ outcome_of (permute_no wit.now.width rounds params.now input.now))
        × (trace.new ≡ on_yes (permute_no wit.now.width rounds params.now input.now)
        (trace_with wit.now (evaluated_step wit.now input.now rounds params.now) trace.old) trace.old) }
{
    words::put(&mut *state, 0, input);
    permute::permute(wit.width, rounds, params, &mut *state)?;
    put_step(wit, trace, input, state);
    Ok(())
}
