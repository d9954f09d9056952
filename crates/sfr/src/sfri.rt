// The byte form of an instance, for C.

ghost use Rattle.std.specs.Prelude.{◌≡◌};
ghost use Rattle.encoding.specs.Answers.{InstanceWrites};
ghost use Rattle.decoding.specs.Read.{plain_rule, strict_rule};
ghost use Rattle.decoding.specs.Records.{told_instance};
ghost use Rattle.decoding.specs.Answers.{stores, InstanceReads};
ghost use Rattle.sfr.specs.Trace.{written_answer};
ghost use Rattle.sfr.specs.Sfri.{read_of, read_answer};

use crate::gate::NO_INSTANCE;
use crate::trace::{SfrWritten, written_answer};
use decoding::{InstanceRead, Span};
use instance::PermutationInstance;
use limits::Refused;

// What was read: the record, and where in the input the label lies; zeros after a refusal.
#[repr(C)]
#[derive(Clone, Copy)]
pub struct SfrInstanceRead {
    pub number: u32,
    pub instance: PermutationInstance,
    pub label: Span,
}

// The instance's bytes, SFRI, into the output.
#[unsafe(no_mangle)]
pub extern "C" fn sfr_instance_to_bytes(
    ins: PermutationInstance,
    label: &[u8],
    publics: &[u32],
    queries: &[u32],
    equations: &[u32],
    out: &mut [u8],
) -> SfrWritten
    ensures { InstanceWrites written_answer ins label.now publics.now queries.now equations.now
        out.old result out.new }
{
    written_answer(encoding::instance_to_bytes(ins, label, publics, queries, equations, out))
}

// What a read answers, for C.
fn read_answer(read: Result<InstanceRead, Refused>) -> SfrInstanceRead
    ensures { result ≡ read_of (told_instance read) }
{
    match read {
        Ok(read) => SfrInstanceRead {
            number: 0,
            instance: read.instance,
            label: read.label,
        },
        Err(refused) => SfrInstanceRead {
            number: refused.0,
            instance: NO_INSTANCE,
            label: Span { at: 0, len: 0 },
        },
    }
}

// The instance that the bytes hold, for this width, into the stores.
#[unsafe(no_mangle)]
pub extern "C" fn sfr_instance_from_bytes(
    width: u32,
    bytes: &[u8],
    publics: &mut [u32],
    queries: &mut [u32],
    equations: &mut [u32],
    scratch: &mut [u32],
) -> SfrInstanceRead
    ensures { InstanceReads plain_rule (read_answer width) width bytes.now
        (stores publics.old queries.old equations.old scratch.old)
        (stores publics.new queries.new equations.new scratch.new) result }
{
    read_answer(decoding::instance_from_bytes_at(
        width, bytes, publics, queries, equations, scratch,
    ))
}

// The same of a file that lists wire 0 with value 0.
#[unsafe(no_mangle)]
pub extern "C" fn sfr_strict_instance_from_bytes(
    width: u32,
    bytes: &[u8],
    publics: &mut [u32],
    queries: &mut [u32],
    equations: &mut [u32],
    scratch: &mut [u32],
) -> SfrInstanceRead
    ensures { InstanceReads strict_rule (read_answer width) width bytes.now
        (stores publics.old queries.old equations.old scratch.old)
        (stores publics.new queries.new equations.new scratch.new) result }
{
    read_answer(decoding::strict_instance_from_bytes_at(
        width, bytes, publics, queries, equations, scratch,
    ))
}
