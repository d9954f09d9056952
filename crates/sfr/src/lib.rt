// The proved functions for C and Rust: the static library libsfr.a (`rt lib` in this folder), declared in
// include/sfr.h and rust/src/sys.rs.
//
// Each function here only hands its arguments on; what comes back is its own struct with the documents' number
// first, 0 for yes. A lent list is a pointer and a count.

#![tactic(auto)]

ghost use Rattle.std.specs.Prelude.{◌≡◌, ◌↔◌, true};
ghost use Rattle.baby_bear.specs.Field.{add_unit, mul_unit};
ghost use Rattle.utf8.specs.Utf8.{is_utf8, Utf8};
ghost use Rattle.utf8.specs.Place.{FirstBad, scan_utf8};
ghost use Rattle.narg.specs.Cursor.{read_u32, put_u32, put_u32_out, read_units, read_units_out, read_vars, read_vars_out};
ghost use Rattle.sfr.specs.Leaves.{utf8_scanned, word_read, place_written, place_read};

use baby_bear::BabyBearUnit;
use limits::Refused;
use narg::Cursor;

mod check;
mod gate;
mod relation;
mod sfri;
mod shared;
mod trace;

// The place of the first bad byte, or how many bytes there are where none is bad; and whether the bytes are UTF-8.
#[repr(C)]
#[derive(Clone, Copy)]
pub struct SfrUtf8Scan {
    pub place: usize,
    pub passes: bool,
}

// A word that was read: number 0 and the place after it, or 20, value 0 and the place that was given.
#[repr(C)]
#[derive(Clone, Copy)]
pub struct SfrWord {
    pub number: u32,
    pub value: u32,
    pub next: usize,
}

// The place after what was read or written, or a refusal's number and the place that was given.
#[repr(C)]
#[derive(Clone, Copy)]
pub struct SfrPlace {
    pub number: u32,
    pub next: usize,
}

// The sum modulo p.
#[unsafe(no_mangle)]
pub extern "C" fn sfr_add_unit(a: u32, b: u32) -> u32
    ensures { result ≡ add_unit a b }
{
    baby_bear::add_unit(BabyBearUnit(a), BabyBearUnit(b)).0
}

// The product modulo p.
#[unsafe(no_mangle)]
pub extern "C" fn sfr_mul_unit(a: u32, b: u32) -> u32
    ensures { result ≡ mul_unit a b }
{
    baby_bear::mul_unit(BabyBearUnit(a), BabyBearUnit(b)).0
}

// Are the bytes UTF-8?
#[unsafe(no_mangle)]
pub extern "C" fn sfr_is_utf8(bytes: &[u8]) -> bool
    ensures { (result ≡ is_utf8 bytes.now) × ((result ≡ true) ↔ Utf8 bytes.now) }
{
    utf8::is_utf8(bytes)
}

// Which byte is the first bad one, and are the bytes UTF-8?
#[unsafe(no_mangle)]
pub extern "C" fn sfr_scan_utf8(bytes: &[u8]) -> SfrUtf8Scan
    ensures { (result ≡ utf8_scanned (scan_utf8 bytes.now))
        × FirstBad bytes.now result.place
        × ((result.passes ≡ true) ↔ Utf8 bytes.now) }
{
    let scan = utf8::scan_utf8(bytes);
    SfrUtf8Scan {
        place: scan.place,
        passes: scan.passes,
    }
}

// The little-endian word at a place of the bytes.
#[unsafe(no_mangle)]
pub extern "C" fn sfr_read_u32(bytes: &[u8], at: usize) -> SfrWord
    ensures { result ≡ word_read at (read_u32 bytes.now at) }
{
    match narg::read_u32(bytes, Cursor { at }) {
        Some((value, c)) => SfrWord {
            number: 0,
            value,
            next: c.at,
        },
        None => SfrWord {
            number: 20,
            value: 0,
            next: at,
        },
    }
}

// A word, little-endian, at a place of the output; nothing is written where it does not fit.
#[unsafe(no_mangle)]
pub extern "C" fn sfr_put_u32(out: &mut [u8], at: usize, value: u32) -> SfrPlace
    ensures { (result ≡ place_written at (put_u32 out.old at value)) × (out.new ≡ put_u32_out out.old at value) }
{
    match narg::put_u32(out, Cursor { at }, value) {
        Some(c) => SfrPlace {
            number: 0,
            next: c.at,
        },
        None => SfrPlace {
            number: 10,
            next: at,
        },
    }
}

// What an item came to, for C.
fn place_read(at: usize, item: Result<Cursor, Refused>) -> SfrPlace
    ensures { result ≡ place_read at item }
{
    SfrPlace {
        number: limits::number(&item),
        next: item.map_or(at, |c| c.at),
    }
}

// n units from place `at` of the bytes on, into the store from `place` on, or none of them.
#[unsafe(no_mangle)]
pub extern "C" fn sfr_read_units(
    bytes: &[u8],
    at: usize,
    out: &mut [u32],
    place: usize,
    n: u32,
) -> SfrPlace
    ensures { (result ≡ place_read at (read_units bytes.now at out.old place n))
        × (out.new ≡ read_units_out bytes.now at out.old place n) }
{
    place_read(at, narg::read_units(bytes, Cursor { at }, out, place, n))
}

// n wires, in the same way.
#[unsafe(no_mangle)]
pub extern "C" fn sfr_read_vars(
    bytes: &[u8],
    at: usize,
    out: &mut [u32],
    place: usize,
    n: u32,
) -> SfrPlace
    ensures { (result ≡ place_read at (read_vars bytes.now at out.old place n))
        × (out.new ≡ read_vars_out bytes.now at out.old place n) }
{
    place_read(at, narg::read_vars(bytes, Cursor { at }, out, place, n))
}
