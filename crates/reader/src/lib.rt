// A reader over lent bytes: the input and a place in it (spongefish's NargReader).
//
// The reader goes in and comes back by value; the input stays lent. A word that is read comes with the cursor
// past it; `moved` is the reader at another place, which may be anywhere, also past the end. Every
// function answers on every input. Those over a reader only take it apart: the work is done on bytes and a cursor.

#![tactic(auto)]

ghost use Rattle.std.specs.Prelude.{◌≡◌};
ghost use Rattle.narg.specs.Cursor.{cursor, read_u32};
ghost use Rattle.reader.specs.At.{part_at, place_at};

use narg::Cursor;

// The input, and how far it is read.
#[derive(Clone, Copy)]
pub struct NargReader<'a> {
    pub bytes: &'a [u8],
    pub at: Cursor,
}

// ---- on bytes and a cursor

// The n bytes at the cursor, as that very part; where fewer are left, none.
fn part_at(bytes: &[u8], c: Cursor, n: usize) -> &[u8]
    ensures { (result.now ≡ part_at bytes.now c.at n)
        × (result.ref_ptr ≡ place_at bytes.now c.at n bytes.entry.ref_ptr) }
{
    let from = c.at;
    if bytes.len() < from {
        return &bytes[..0];
    }
    if bytes.len() - from < n {
        return &bytes[..0];
    }
    let end = from + n;
    &bytes[from..end]
}

// ---- on a reader

// A reader at the start of the input.
pub fn new<'a>(bytes: &'a [u8]) -> NargReader<'a>
    ensures { (result.bytes ≡ bytes.entry) × (result.at ≡ cursor 0) }
{
    NargReader {
        bytes,
        at: Cursor { at: 0 },
    }
}

// The reader at another place of its input.
pub fn moved<'a>(r: NargReader<'a>, at: Cursor) -> NargReader<'a>
    ensures { (result.bytes ≡ r.entry.bytes) × (result.at ≡ at) }
{
    NargReader { bytes: r.bytes, at }
}

// The word at the place, with the cursor past it; None where the bytes end before it.
pub fn read_u32<'a>(r: NargReader<'a>) -> Option<(u32, Cursor)>
    ensures { result ≡ read_u32 r.entry.bytes.now r.entry.at.at }
{
    narg::read_u32(r.bytes, r.at)
}

// The n bytes at the place, as that very part of the input; where fewer are left, none.
pub fn take<'a>(r: NargReader<'a>, n: usize) -> &'a [u8]
    ensures { (result.now ≡ part_at r.entry.bytes.now r.entry.at.at n)
        × (result.ref_ptr ≡ place_at r.entry.bytes.now r.entry.at.at n r.entry.bytes.ref_ptr) }
{
    part_at(r.bytes, r.at, n)
}
