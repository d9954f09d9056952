// The header that both byte forms begin with, SFRI and SFRW: magic, version, width, unit length 4, read.
//
//   "SFRI" or "SFRW" u8:1 u32:width u32:4
//
// Its numbers are here for what writes (crate `encoding`) and what reads (crate `decoding`), and so is what a
// reader of a field answers. Every open function answers on every input.

#![tactic(auto)]

ghost use Rattle.std.specs.Prelude.{◌≡◌};
ghost use Rattle.header.specs.Read.{read_header};
ghost use Rattle.header.specs.Form.{is_magic};
ghost use Rattle.header.specs.Answers.{header_field};
ghost use Rattle.header.specs.Told.{ToldMagic};

use limits::Refused;
use narg::Cursor;

// The version that is written and read.
pub const VERSION: u8 = 1;

// How many bytes a unit has.
pub const UNIT_LENGTH: u32 = 4;

// Where the version stands, behind the magic; the width; the unit length; and where the header ends.
pub const VERSION_AT: usize = 4;

pub const WIDTH_AT: usize = 5;

pub const UNIT_LENGTH_AT: usize = 9;

pub const HEADER_LENGTH: usize = 13;

// A field or a part that was read: its number (a count, a wire, a length or a word), the number that belongs to it (how
// many words the part takes in its store; a wire's unit; else 0), and the cursor past it.
#[derive(Clone, Copy)]
pub struct Field {
    pub value: u32,
    pub extra: u32,
    pub next: Cursor,
}

// Are four bytes the magic with that last letter?
fn is_magic(a: u8, b: u8, c: u8, d: u8, last: u8) -> bool
    ensures { result ≡ is_magic a b c d last }
{
    if a != b'S' {
        return false;
    }
    if b != b'F' {
        return false;
    }
    if c != b'R' {
        return false;
    }
    d == last
}

// Questions 21 and 22 of magic and version (the byte in `mark`), each after 20.
fn ask_magic(magic: &[u8], mark: &[u8], last: u8, version: u8) -> Result<(), Refused>
    ensures { ToldMagic last version magic.now mark.now result }
{
    if magic.len() < VERSION_AT {
        return Err(Refused(20));
    }
    if !is_magic(magic[0], magic[1], magic[2], magic[3], last) {
        return Err(Refused(21));
    }
    if mark.len() < 1 {
        return Err(Refused(20));
    }
    if mark[0] != version {
        return Err(Refused(22));
    }
    Ok(())
}

// A header of that form, version and width, through a reader: each field where it stands, which is none where the bytes
// end before it. Questions 21 to 24, each after 20.
pub fn read_header(bytes: &[u8], last: u8, version: u8, width: u32) -> Result<Field, Refused>
    ensures { result ≡ header_field (read_header last version width bytes.now) }
{
    let start = reader::new(bytes);
    let magic = reader::take(start, VERSION_AT);
    let mark = reader::take(reader::moved(start, Cursor { at: VERSION_AT }), 1);
    ask_magic(magic, mark, last, version)?;
    let w = reader::read_u32(reader::moved(start, Cursor { at: WIDTH_AT }));
    let (n, _) = w.ok_or(Refused(20))?;
    limits::ask(23, n == width)?;
    let unit = reader::read_u32(reader::moved(start, Cursor { at: UNIT_LENGTH_AT }));
    let (len, next) = unit.ok_or(Refused(20))?;
    limits::ask(24, len == UNIT_LENGTH)?;
    Ok(Field {
        value: 0,
        extra: 0,
        next,
    })
}
