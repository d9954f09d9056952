// A witness read: SFRW, the steps of a trace (the source's `PermutationWitness::from_bytes`).

ghost use Rattle.std.specs.Prelude.{◌≡◌, length};
ghost use Rattle.decoding.specs.Records.{told_steps};
ghost use Rattle.decoding.specs.Answers.{witness_from_bytes, witness_answer, trace_after};
ghost use Rattle.decoding.specs.Given.{StepsTold};

use header::{VERSION, read_header};
use limits::Refused;

// 1 and 2, header, steps, and 28 where bytes are left over: the number of steps. Where it refuses, the trace may hold
// anything.
fn read_witness(width: u32, bytes: &[u8], trace: &mut [u32]) -> Result<u32, Refused>
    ensures { StepsTold width bytes.now trace.old trace.new result }
{
    items::ask_pieces(width, trace.len())?;
    let header = read_header(bytes, b'W', VERSION, width)?;
    let steps = items::read_pieces(bytes, header.next, width, trace, limits::P, 4)?;
    if steps.next.at < bytes.len() {
        return Err(Refused(28));
    }
    Ok(steps.value)
}

// SFRW of that width into a trace: the steps, then 0 to its end; all 0 where it refuses. The number of steps. Questions
// 1, 2, then field by field 20 to 24, 4 and 10, last 28.
pub fn witness_from_bytes(width: u32, bytes: &[u8], trace: &mut [u32]) -> Result<u32, Refused>
    ensures { (told_steps result ≡ witness_answer (witness_from_bytes width bytes.now (length trace.old)))
        × (trace.new ≡ trace_after (length trace.old) (witness_from_bytes width bytes.now (length trace.old))) }
{
    let steps = read_witness(width, bytes, trace);
    if steps.is_err() {
        words::fill(trace, 0);
    }
    steps
}
