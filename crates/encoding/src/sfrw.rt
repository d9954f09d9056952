// A witness written: SFRW, the steps of a trace (the source's `PermutationWitness::to_bytes`).

ghost use Rattle.std.specs.Prelude.{◌≡◌};
ghost use Rattle.limits.specs.Questions.{first_no};
ghost use Rattle.limits.specs.Outcome.{as_is, outcome_of};
ghost use Rattle.encoding.specs.Answers.{written, steps_asks, witness_to_bytes_no, WitnessWrites};

use crate::put::{put_header, put_list};
use header::{HEADER_LENGTH, VERSION};
use limits::Refused;

// How many bytes there are beside the steps: the header and a word, their count.
const FIXED: usize = HEADER_LENGTH + 4;

// The questions of the steps of a trace: 1, 2, 11.
fn ask_steps(width: u32, steps: u32, trace: &[u32]) -> Result<(), Refused>
    ensures { result ≡ outcome_of (first_no (steps_asks width steps trace.now)) }
{
    limits::ask_width(width)?;
    words::ask_held(width, steps, trace.len())?;
    words::ask_below(held::held_pieces(trace, width, steps), limits::P, 11)
}

// The questions of a write: those, and 10.
fn ask_witness_to_bytes(width: u32, steps: u32, trace: &[u32], room: usize) -> Result<(), Refused>
    ensures { result ≡ outcome_of (witness_to_bytes_no width steps trace.now room) }
{
    ask_steps(width, steps, trace)?;
    let held = held::held_pieces(trace, width, steps);
    limits::ask(10, FIXED + 4 * held.len() <= room)
}

// The first `steps` steps of a trace as SFRW, at the front of the output. Questions 1, 2, 11, 10.
pub fn witness_to_bytes(
    width: u32,
    steps: u32,
    trace: &[u32],
    out: &mut [u8],
) -> Result<usize, Refused>
    ensures { WitnessWrites as_is width steps trace.now out.old (written result) out.new }
{
    ask_witness_to_bytes(width, steps, trace, out.len())?;
    let held = held::held_pieces(trace, width, steps);
    put_header(out, b'W', VERSION, width);
    Ok(put_list(out, HEADER_LENGTH, steps, held))
}
