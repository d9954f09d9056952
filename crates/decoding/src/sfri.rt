// An instance read: SFRI (the source's `PermutationInstance::from_bytes`).

ghost use Rattle.std.specs.Prelude.{◌≡◌, ◌-◌, ◌≤◌, length, replicate};
ghost use Rattle.limits.specs.Questions.{first_no};
ghost use Rattle.limits.specs.Outcome.{outcome_of};
ghost use Rattle.instance.specs.Parts.{pairs_at};
ghost use Rattle.parts.specs.Answers.{read_parts_asks};
ghost use Rattle.decoding.specs.Read.{rooms, plain_rule, strict_rule};
ghost use Rattle.decoding.specs.Records.{told_instance};
ghost use Rattle.decoding.specs.Answers.{read_asks, instance_answer, stores, InstanceReads, FileReads};
ghost use Rattle.decoding.specs.Given.{read_at, rule_of, rule_no, FileTold, InstanceTold};

use crate::{InstanceFile, InstanceRead, Span};
use header::{VERSION, read_header};
use instance::PermutationInstance;
use limits::Refused;
use narg::Cursor;

// What was read, where the label has `len` bytes and ends at a cursor.
fn accepted(instance: PermutationInstance, end: Cursor, len: u32) -> InstanceRead
    requires { len ≤ end.at }
    ensures { result ≡ read_at instance (end.at - len) len }
{
    let last = end.at;
    let len = len as usize;
    let at = last - len;
    InstanceRead {
        instance,
        label: Span { at, len },
    }
}

// What a read asks directly after 27, of publics that were read into a store: 46 where it is strict.
fn ask_rule(strict: bool, ins: &PermutationInstance, publics: &[u32]) -> Result<(), Refused>
    ensures { result ≡ outcome_of (rule_no strict ins.now.vars (pairs_at ins.now.publics publics.now)) }
{
    if strict {
        return zero_wire::ask_zero_wire(ins.vars, publics, ins.publics);
    }
    Ok(())
}

// Header, label, parts, and 27, after 1 and 2: what was read, and the cursor past it.
fn read_file(
    width: u32,
    bytes: &[u8],
    publics: &mut [u32],
    queries: &mut [u32],
    equations: &mut [u32],
) -> Result<(InstanceRead, Cursor), Refused>
    requires { first_no (read_parts_asks width (rooms (length publics.old) (length queries.old) (length equations.old) 0)) ≡ 0 }
    ensures { FileTold width bytes.now
        publics.old queries.old equations.old
        publics.new queries.new equations.new result }
{
    let header = read_header(bytes, b'I', VERSION, width)?;
    let label = parts::read_label(bytes, header.next)?;
    let (instance, end) = parts::read_parts(bytes, label.next, width, publics, queries, equations)?;
    parts::ask_order(publics, instance.publics)?;
    Ok((accepted(instance, label.next, label.value), end))
}

// What a read asks before the bytes: 1, and 2 of each store.
fn ask_read(
    width: u32,
    publics: usize,
    queries: usize,
    equations: usize,
    scratch: usize,
) -> Result<(), Refused>
    ensures { result ≡ outcome_of (first_no (read_asks width (rooms publics queries equations scratch))) }
{
    limits::ask_width(width)?;
    limits::ask_store(publics)?;
    limits::ask_store(queries)?;
    limits::ask_store(equations)?;
    limits::ask_store(scratch)
}

// 1 and 2, the file, then 46 where the read is strict, the gate (16, 12 to 15) and 28. Where it refuses, stores and
// scratch may hold anything.
fn read_instance(
    width: u32,
    bytes: &[u8],
    publics: &mut [u32],
    queries: &mut [u32],
    equations: &mut [u32],
    scratch: &mut [u32],
    strict: bool,
) -> Result<InstanceRead, Refused>
    ensures { InstanceTold (rule_of strict) width bytes.now
        (stores publics.old queries.old equations.old scratch.old)
        (stores publics.new queries.new equations.new scratch.new) result }
{
    ask_read(
        width,
        publics.len(),
        queries.len(),
        equations.len(),
        scratch.len(),
    )?;
    let (read, end) = read_file(width, bytes, publics, queries, equations)?;
    ask_rule(strict, &read.instance, publics)?;
    validated::ask_validated(&read.instance, publics, queries, equations, scratch)?;
    if end.at < bytes.len() {
        return Err(Refused(28));
    }
    Ok(read)
}

// What a refused read leaves: three stores and the scratch, all 0.
fn clear(publics: &mut [u32], queries: &mut [u32], equations: &mut [u32], scratch: &mut [u32])
    ensures { (publics.new ≡ replicate (length publics.old) 0)
        × (queries.new ≡ replicate (length queries.old) 0)
        × (equations.new ≡ replicate (length equations.old) 0)
        × (scratch.new ≡ replicate (length scratch.old) 0) }
{
    words::fill(publics, 0);
    words::fill(queries, 0);
    words::fill(equations, 0);
    words::fill(scratch, 0);
}

// SFRI of that width into lent stores, strictly or not: the two open reads below.
fn instance_from_bytes_with(
    width: u32,
    bytes: &[u8],
    publics: &mut [u32],
    queries: &mut [u32],
    equations: &mut [u32],
    scratch: &mut [u32],
    strict: bool,
) -> Result<InstanceRead, Refused>
    ensures { InstanceReads (rule_of strict) (instance_answer width) width bytes.now
        (stores publics.old queries.old equations.old scratch.old)
        (stores publics.new queries.new equations.new scratch.new) (told_instance result) }
{
    let read = read_instance(width, bytes, publics, queries, equations, scratch, strict);
    if read.is_err() {
        clear(publics, queries, equations, scratch);
    }
    read
}

// SFRI of that width into lent stores: each part, then 0 to its store's end; all 0 where it refuses. Questions 1, 2,
// then field by field 20 to 25, 3, 4 and 10, then 27, 16, 12 to 15, last 28. Scratch is all 0 afterwards. The label is
// told by its place and length.
pub fn instance_from_bytes_at(
    width: u32,
    bytes: &[u8],
    publics: &mut [u32],
    queries: &mut [u32],
    equations: &mut [u32],
    scratch: &mut [u32],
) -> Result<InstanceRead, Refused>
    ensures { InstanceReads plain_rule (instance_answer width) width bytes.now
        (stores publics.old queries.old equations.old scratch.old)
        (stores publics.new queries.new equations.new scratch.new) (told_instance result) }
{
    instance_from_bytes_with(width, bytes, publics, queries, equations, scratch, false)
}

// The same of files that list wire 0 with value 0, as provers insist (document 02, R-7): 46 directly after 27.
pub fn strict_instance_from_bytes_at(
    width: u32,
    bytes: &[u8],
    publics: &mut [u32],
    queries: &mut [u32],
    equations: &mut [u32],
    scratch: &mut [u32],
) -> Result<InstanceRead, Refused>
    ensures { InstanceReads strict_rule (instance_answer width) width bytes.now
        (stores publics.old queries.old equations.old scratch.old)
        (stores publics.new queries.new equations.new scratch.new) (told_instance result) }
{
    instance_from_bytes_with(width, bytes, publics, queries, equations, scratch, true)
}

// The plain read, with the label as that very part of the bytes, taken through a reader.
pub fn instance_from_bytes<'a>(
    width: u32,
    bytes: &'a [u8],
    publics: &mut [u32],
    queries: &mut [u32],
    equations: &mut [u32],
    scratch: &mut [u32],
) -> Result<InstanceFile<'a>, Refused>
    ensures { FileReads plain_rule width bytes.entry
        (stores publics.old queries.old equations.old scratch.old)
        (stores publics.new queries.new equations.new scratch.new) result }
{
    let read = instance_from_bytes_at(width, bytes, publics, queries, equations, scratch)?;
    let start = reader::moved(reader::new(bytes), Cursor { at: read.label.at });
    let label = reader::take(start, read.label.len);
    Ok(InstanceFile {
        instance: read.instance,
        label,
    })
}
