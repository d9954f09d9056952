// An instance written: SFRI (the source's `PermutationInstance::to_bytes`).

ghost use Rattle.std.specs.Prelude.{◌≡◌};
ghost use Rattle.limits.specs.Outcome.{as_is, outcome_of};
ghost use Rattle.header.specs.Form.{version};
ghost use Rattle.encoding.specs.Form.{label_bytes};
ghost use Rattle.encoding.specs.Answers.{written, instance_to_bytes_no, InstanceWrites};
ghost use Rattle.encoding.specs.Put.{held_bytes, HeldFits, LabelFits, PutsAt};

use crate::put::{put_bytes, put_header, put_list};
use header::{HEADER_LENGTH, VERSION};
use held::{held_pieces, held_words};
use instance::PermutationInstance;
use limits::Refused;
use narg::Cursor;

// How many bytes there are beside label and lists: the header and five words, which are the label's length, the wire
// count and the count of each list.
const FIXED: usize = HEADER_LENGTH + 5 * 4;

// The label's length and its bytes at a place of an output; and the place past them.
fn put_label(out: &mut [u8], at: usize, label: &[u8]) -> usize
    requires { LabelFits at label.now out.old }
    ensures { PutsAt at (label_bytes label.now) out.old result out.new }
{
    let first = at + 4;
    narg::put_u32(out, Cursor { at }, label.len() as u32);
    put_bytes(out, first, label);
    first + label.len()
}

// The bytes of held words, each list with its count; and how many they are.
fn put_held(
    out: &mut [u8],
    ins: PermutationInstance,
    label: &[u8],
    publics: &[u32],
    queries: &[u32],
    equations: &[u32],
) -> usize
    requires { HeldFits label.now publics.now queries.now equations.now out.old }
    ensures { PutsAt 0 (held_bytes version ins label.now publics.now queries.now equations.now)
        out.old result out.new }
{
    put_header(out, b'I', VERSION, ins.width);
    let at = put_label(out, HEADER_LENGTH, label);
    narg::put_u32(out, Cursor { at }, ins.vars);
    let after_publics = put_list(out, at + 4, ins.publics, publics);
    let after_queries = put_list(out, after_publics, ins.queries, queries);
    put_list(out, after_queries, ins.equations, equations)
}

// The questions of a write: 1, 2, 11, 10. Not 12 to 15 and not 27: any held parts are written.
fn ask_instance_to_bytes(
    ins: PermutationInstance,
    label: &[u8],
    publics: &[u32],
    queries: &[u32],
    equations: &[u32],
    room: usize,
) -> Result<(), Refused>
    ensures { result ≡ outcome_of (instance_to_bytes_no ins label.now publics.now queries.now equations.now room) }
{
    held::ask_instance(&ins, label, publics, queries, equations)?;
    let pairs = held_words(publics, 2 * ins.publics as usize);
    let pieces = held_pieces(queries, ins.width, ins.queries);
    let words = held_words(equations, ins.words as usize);
    let size = 4 * (pairs.len() + pieces.len() + words.len());
    limits::ask(10, FIXED + label.len() + size <= room)
}

// Held parts as SFRI, gated or not, at the front of the output. Questions 1, 2, 11, 10.
pub fn instance_to_bytes(
    ins: PermutationInstance,
    label: &[u8],
    publics: &[u32],
    queries: &[u32],
    equations: &[u32],
    out: &mut [u8],
) -> Result<usize, Refused>
    ensures { InstanceWrites as_is ins label.now publics.now queries.now equations.now
        out.old (written result) out.new }
{
    ask_instance_to_bytes(ins, label, publics, queries, equations, out.len())?;
    let pairs = held_words(publics, 2 * ins.publics as usize);
    let pieces = held_pieces(queries, ins.width, ins.queries);
    let words = held_words(equations, ins.words as usize);
    Ok(put_held(out, ins, label, pairs, pieces, words))
}
