// The parts of SFRI (the source's encoding.rs), read from bytes at a cursor: the label; the wire count and the three
// lists, publics, queries and equations, into lent stores. And 27, the order of the publics.
//
// Every open function answers on every input. A refused reader of parts leaves its stores all 0.

#![tactic(auto, unfolding(limits::specs::Questions::ask, limits::specs::Questions::first_of_two))]

ghost use Rattle.std.specs.Prelude.{◌≡◌, length, drop, replicate};
ghost use Rattle.limits.specs.Questions.{first_no};
ghost use Rattle.limits.specs.Outcome.{asked, outcome_of};
ghost use Rattle.instance.specs.Parts.{pairs_at};
ghost use Rattle.parts.specs.Read.{rooms, read_label, increasing};
ghost use Rattle.parts.specs.Answers.{label_field, read_parts_asks, PartsReads};
ghost use Rattle.parts.specs.Told.{PartsTold};

use header::Field;
use instance::PermutationInstance;
use limits::{MAX_COUNT, Refused};
use narg::Cursor;

// ---- the label

// The label, through a reader: its length, and as many bytes that are UTF-8. Questions 20, 20, 25.
pub fn read_label(bytes: &[u8], c: Cursor) -> Result<Field, Refused>
    ensures { result ≡ label_field c.at (read_label (drop c.at bytes.now)) }
{
    let start = reader::moved(reader::new(bytes), c);
    let (n, first) = reader::read_u32(start).ok_or(Refused(20))?;
    let count = n as usize;
    let part = reader::take(reader::moved(start, first), count);
    if part.len() < count {
        return Err(Refused(20));
    }
    if !utf8::is_utf8(part) {
        return Err(Refused(25));
    }
    Ok(Field {
        value: n,
        extra: 0,
        next: Cursor {
            at: first.at + count,
        },
    })
}

// ---- the wire count and the lists

// What is asked before the bytes: 1, and 2 of each store.
fn ask_parts(width: u32, publics: usize, queries: usize, equations: usize) -> Result<(), Refused>
    ensures { result ≡ outcome_of (first_no (read_parts_asks width (rooms publics queries equations 0))) }
{
    limits::ask_width(width)?;
    limits::ask_store(publics)?;
    limits::ask_store(queries)?;
    limits::ask_store(equations)
}

// 1 and 2, then the wire count and the three lists. Where it refuses, the stores may hold anything.
fn parts_into(
    bytes: &[u8],
    c: Cursor,
    width: u32,
    publics: &mut [u32],
    queries: &mut [u32],
    equations: &mut [u32],
) -> Result<(PermutationInstance, Cursor), Refused>
    ensures { PartsTold width bytes.now c.at
        publics.old queries.old equations.old
        publics.new queries.new equations.new result }
{
    ask_parts(width, publics.len(), queries.len(), equations.len())?;
    let (vars, first) = narg::read_u32(bytes, c).ok_or(Refused(20))?;
    let pairs = items::read_publics(bytes, first, publics)?;
    let pieces = items::read_pieces(bytes, pairs.next, width, queries, MAX_COUNT, 3)?;
    let linear = items::read_equations(bytes, pieces.next, equations)?;
    let ins = PermutationInstance {
        width,
        vars,
        queries: pieces.value,
        equations: linear.value,
        words: linear.extra,
        publics: pairs.value,
    };
    Ok((ins, linear.next))
}

// All three stores become 0.
fn clear(publics: &mut [u32], queries: &mut [u32], equations: &mut [u32])
    ensures { (publics.new ≡ replicate (length publics.old) 0)
        × (queries.new ≡ replicate (length queries.old) 0)
        × (equations.new ≡ replicate (length equations.old) 0) }
{
    words::fill(publics, 0);
    words::fill(queries, 0);
    words::fill(equations, 0);
}

// The wire count and the three lists, each into its store: its words, then 0 to its end. The record, and the cursor
// past them. Questions 1, 2; 20; then those of the lists.
pub fn read_parts(
    bytes: &[u8],
    c: Cursor,
    width: u32,
    publics: &mut [u32],
    queries: &mut [u32],
    equations: &mut [u32],
) -> Result<(PermutationInstance, Cursor), Refused>
    ensures { PartsReads width bytes.now c.at
        publics.old queries.old equations.old
        publics.new queries.new equations.new result }
{
    let parts = parts_into(bytes, c, width, publics, queries, equations);
    if parts.is_err() {
        clear(publics, queries, equations);
    }
    parts
}

// ---- the order of the publics

// Are the wires of the first n pairs strictly increasing? Where the store ends before them, the words are taken to be 0.
fn increasing(publics: &[u32], n: u32) -> bool
    ensures { result ≡ increasing (pairs_at n publics.now) }
{
    for i in 1..n as usize {
        if publics.len() <= 2 * i {
            return false;
        }
        if publics[2 * i] <= publics[2 * i - 2] {
            return false;
        }
    }
    true
}

// 27: are the wires of the first n pairs strictly increasing?
pub fn ask_order(publics: &[u32], n: u32) -> Result<(), Refused>
    ensures { result ≡ asked 27 (increasing (pairs_at n publics.now)) }
{
    limits::ask(27, increasing(publics, n))
}
