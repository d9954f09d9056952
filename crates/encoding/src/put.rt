// What both forms write: the header, bytes, and a list with its count. The output holds what is written.

ghost use Rattle.std.specs.Prelude.{◌≡◌, ◌+◌, ◌*◌, ◌≤◌, length};
ghost use Rattle.words.specs.Store.{put_words};
ghost use Rattle.header.specs.Form.{header_bytes, header_length};
ghost use Rattle.encoding.specs.Put.{list_bytes, PutsAt};

use header::{UNIT_LENGTH, UNIT_LENGTH_AT, WIDTH_AT};
use narg::Cursor;

// The bytes of a header at the front of an output.
pub(crate) fn put_header(out: &mut [u8], last: u8, version: u8, width: u32)
    requires { header_length ≤ length out.old }
    ensures { out.new ≡ put_words 0 (header_bytes last version width) out.old }
{
    out[..WIDTH_AT].copy_from_slice(&[b'S', b'F', b'R', last, version]);
    narg::put_u32(out, Cursor { at: WIDTH_AT }, width);
    narg::put_u32(out, Cursor { at: UNIT_LENGTH_AT }, UNIT_LENGTH);
}

// Bytes at a place of an output.
pub(crate) fn put_bytes(out: &mut [u8], at: usize, bytes: &[u8])
    requires { at + length bytes.now ≤ length out.old }
    ensures { out.new ≡ put_words at bytes.now out.old }
{
    // By a loop: the library's copy would have the archive ask for `memmove`.
    for (i, byte) in bytes.iter().enumerate() {
        out[at + i] = *byte;
    }
}

// A count and the words of a list at a place of an output; and the place past them.
pub(crate) fn put_list(out: &mut [u8], at: usize, count: u32, words: &[u32]) -> usize
    requires { at + 4 + 4 * length words.now ≤ length out.old }
    ensures { PutsAt at (list_bytes count words.now) out.old result out.new }
{
    let first = at + 4;
    narg::put_u32(out, Cursor { at }, count);
    narg::put_words(out, Cursor { at: first }, words);
    first + 4 * words.len()
}
