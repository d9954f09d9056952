// Operations 1 to 7: units added and multiplied, UTF-8, and words read from bytes.

use crate::answer::{Answer, count};
use crate::sample::Case;
use baby_bear::BabyBearUnit;
use limits::Refused;
use narg::Cursor;

// 1: two words; their sum.
pub(crate) fn add_unit(case: &Case) -> Answer {
    let given = case.given();
    let sum = baby_bear::add_unit(BabyBearUnit(given.x()), BabyBearUnit(given.y()));
    Answer::of(sum.0)
}

// 2: two words; their product.
pub(crate) fn mul_unit(case: &Case) -> Answer {
    let given = case.given();
    let product = baby_bear::mul_unit(BabyBearUnit(given.x()), BabyBearUnit(given.y()));
    Answer::of(product.0)
}

// 3: bytes; 0 where they are UTF-8, else 25.
pub(crate) fn is_utf8(case: &Case) -> Answer {
    Answer::from(limits::ask(25, utf8::is_utf8(case.text())))
}

// A place in the bytes, the first argument.
fn cursor(case: &Case) -> Cursor {
    let at = case.given().x() as usize;
    Cursor { at }
}

// 4: a place, bytes; the number and the word that is read there, or 0.
pub(crate) fn read_u32(case: &Case) -> Answer {
    let word = narg::read_u32(case.text(), cursor(case));
    Answer::from(word.map(|(value, _)| value).ok_or(Refused(20)))
}

// The number of an item and the place after it, which is the given one where it is refused.
fn item(case: &Case, read: Result<Cursor, Refused>) -> Answer {
    let next = read.unwrap_or(cursor(case));
    Answer::of(limits::number(&read)).with_value(count(next.at))
}

// 5: a place in the bytes, one in the store, n, bytes, store; the number, the next place, the store.
pub(crate) fn read_units(case: &Case, store: &mut [u32]) -> Answer {
    let given = case.given();
    let place = given.y() as usize;
    item(
        case,
        narg::read_units(case.text(), cursor(case), store, place, given.n()),
    )
}

// 6: the same of wires.
pub(crate) fn read_vars(case: &Case, store: &mut [u32]) -> Answer {
    let given = case.given();
    let place = given.y() as usize;
    item(
        case,
        narg::read_vars(case.text(), cursor(case), store, place, given.n()),
    )
}

// 7: bytes; 1 where they are UTF-8, else 0, and the place at which the scan ends.
pub(crate) fn scan_utf8(case: &Case) -> Answer {
    let scan = utf8::scan_utf8(case.text());
    Answer::of(u32::from(scan.passes)).with_value(count(scan.place))
}
