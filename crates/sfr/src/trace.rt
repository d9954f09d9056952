// The permutation by its parameters and traces of it, for C. A trace's record is handed in and back by value.

ghost use Rattle.std.specs.Prelude.{◌≡◌, length};
ghost use Rattle.limits.specs.Outcome.{outcome_of};
ghost use Rattle.permute.specs.Parameters.{permute_no, permuted};
ghost use Rattle.inverse.specs.Answers.{permute_inverse_no, permute_inverted, StateBehind};
ghost use Rattle.witness.specs.Trace.{traced, AppendsStep, EvaluatesStep};
ghost use Rattle.encoding.specs.Answers.{written, WitnessWrites};
ghost use Rattle.decoding.specs.Records.{told_steps};
ghost use Rattle.decoding.specs.Answers.{witness_from_bytes, witness_answer, trace_after};
ghost use Rattle.sfr.specs.Trace.{traced_answer, written_answer, trace_read};

use limits::Refused;
use witness::PermutationWitness;

// A call's number with the trace's record beside it.
#[repr(C)]
#[derive(Clone, Copy)]
pub struct SfrTraceAnswer {
    pub number: u32,
    pub trace: PermutationWitness,
}

// How many bytes were written, 0 after a refusal.
#[repr(C)]
#[derive(Clone, Copy)]
pub struct SfrWritten {
    pub number: u32,
    pub len: usize,
}

// The state is turned in place by the permutation of these parameters.
#[unsafe(no_mangle)]
pub extern "C" fn sfr_permute(width: u32, rounds: u32, params: &[u32], state: &mut [u32]) -> u32
    ensures { (result ≡ permute_no width rounds params.now state.old) × (state.new ≡ permuted width rounds params.now state.old) }
{
    limits::number(&permute::permute(width, rounds, params, state))
}

// The input that the permutation of these parameters turns into the output, put into a list of its own.
#[unsafe(no_mangle)]
pub extern "C" fn sfr_permute_inverse(
    width: u32,
    rounds: u32,
    params: &[u32],
    output: &[u32],
    input: &mut [u32],
) -> u32
    ensures { (result ≡ permute_inverse_no width rounds params.now output.now input.old)
        × (input.new ≡ permute_inverted width rounds params.now output.now input.old)
        × StateBehind width rounds params.now output.now (outcome_of result) input.new }
{
    limits::number(&inverse::permute_inverse(width, rounds, params, output, input))
}

// What a builder's call answers, for C.
fn traced_answer(outcome: Result<(), Refused>, trace: PermutationWitness) -> SfrTraceAnswer
    ensures { result ≡ traced_answer (traced outcome trace) }
{
    SfrTraceAnswer {
        number: limits::number(&outcome),
        trace,
    }
}

// A given step, appended.
#[unsafe(no_mangle)]
pub extern "C" fn sfr_append_step(
    rec: PermutationWitness,
    trace: &mut [u32],
    input: &[u32],
    output: &[u32],
) -> SfrTraceAnswer
    ensures { AppendsStep traced_answer rec trace.old input.now output.now result trace.new }
{
    let mut rec = rec;
    let outcome = witness::append_step(&mut rec, trace, input, output);
    traced_answer(outcome, rec)
}

// A step from these inputs, evaluated and appended.
#[unsafe(no_mangle)]
pub extern "C" fn sfr_evaluate_step(
    rec: PermutationWitness,
    trace: &mut [u32],
    input: &[u32],
    rounds: u32,
    params: &[u32],
) -> SfrTraceAnswer
    ensures { EvaluatesStep traced_answer rec trace.old input.now rounds params.now result trace.new }
{
    let mut rec = rec;
    let outcome = witness::evaluate_step(&mut rec, trace, input, rounds, params);
    traced_answer(outcome, rec)
}

// What writing answers, for C.
pub(crate) fn written_answer(len: Result<usize, Refused>) -> SfrWritten
    ensures { result ≡ written_answer (written len) }
{
    SfrWritten {
        number: limits::number(&len),
        len: len.unwrap_or(0),
    }
}

// The trace's bytes, SFRW, into the output.
#[unsafe(no_mangle)]
pub extern "C" fn sfr_witness_to_bytes(
    rec: PermutationWitness,
    trace: &[u32],
    out: &mut [u8],
) -> SfrWritten
    ensures { WitnessWrites written_answer rec.width rec.steps trace.now out.old result out.new }
{
    written_answer(encoding::witness_to_bytes(rec.width, rec.steps, trace, out))
}

// What a read of a trace answers, for C.
fn trace_read(width: u32, steps: Result<u32, Refused>) -> SfrTraceAnswer
    ensures { result ≡ trace_read width (told_steps steps) }
{
    match steps {
        Ok(steps) => SfrTraceAnswer {
            number: 0,
            trace: PermutationWitness { width, steps },
        },
        Err(refused) => SfrTraceAnswer {
            number: refused.0,
            trace: PermutationWitness { width: 0, steps: 0 },
        },
    }
}

// The trace that the bytes hold, for this width, into the store.
#[unsafe(no_mangle)]
pub extern "C" fn sfr_witness_from_bytes(
    width: u32,
    bytes: &[u8],
    trace: &mut [u32],
) -> SfrTraceAnswer
    ensures { (result ≡ trace_read width (witness_answer (witness_from_bytes width bytes.now (length trace.old))))
        × (trace.new ≡ trace_after (length trace.old) (witness_from_bytes width bytes.now (length trace.old))) }
{
    trace_read(width, decoding::witness_from_bytes(width, bytes, trace))
}
