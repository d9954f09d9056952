// UTF-8 as RFC 3629 defines it: is a run of bytes a run of characters, and which byte of it is the first bad one?
//
// Bad is a byte after which nothing can be UTF-8. No character has more than four bytes, so a byte and the three
// before it tell (`fits`), and where all bytes before a place fit, those from it on can be asked many at a time:
// blocks of bytes below 80, blocks of any bytes, and single ones. The scan ends at the first bad byte, having looked
// at none behind the block that holds it, and it answers for every input.
//
// What blocks say is for speed only: where one says no, smaller ones and single bytes are asked.

#![tactic(auto)]

ghost use Rattle.std.specs.Prelude.{◌≡◌, true, false, ◌↔◌, ◌+◌, ◌≤◌, ◌<◌, length};
ghost use Rattle.utf8.specs.Utf8.{Utf8, is_utf8};
ghost use Rattle.utf8.specs.Place.{FirstBad, scan_utf8};
ghost use Rattle.utf8.specs.Scan.{whole, tail_low, tail_high, fits, byte_before, whole_at, fits_at, Fit, Ascii};

// How many bytes of any kind are asked at a time.
const BLOCK: usize = 16;

// How many bytes before a byte tell whether it fits.
const BACK: usize = 3;

// How many bytes below 80 are passed at a time, at the front.
const ASCII_FRONT: usize = 128;

// The same behind a block of such bytes, where others are near.
const ASCII_BEHIND: usize = 32;

// What a scan tells: the place of the first bad byte, or how many bytes there are where none is bad, and whether the
// bytes are UTF-8. Bytes that end inside a character have no bad one and don't pass.
#[derive(Clone, Copy)]
pub struct Utf8Scan {
    pub place: usize,
    pub passes: bool,
}

// After a, b and c, no byte is due: not the fourth of a character, the third or the second.
fn whole(a: u8, b: u8, c: u8) -> bool
    ensures { result ≡ whole a b c }
{
    (a < 0xf0) & (b < 0xe0) & (c < 0xc2)
}

// The least byte that may follow c, where one is due.
fn tail_low(c: u8) -> u8
    ensures { result ≡ tail_low c }
{
    if c == 0xe0 {
        return 0xa0;
    }
    if c == 0xf0 { 0x90 } else { 0x80 }
}

// The greatest. (Two functions: one over four bytes would have the rows of the RFC where it is called, and be no plainer.)
fn tail_high(c: u8) -> u8
    ensures { result ≡ tail_high c }
{
    if c == 0xed {
        return 0x9f;
    }
    if c == 0xf4 { 0x8f } else { 0xbf }
}

// Does d fit after a, b and c? Where no byte is due it begins a character, else it is from 80 to BF, or in what the
// rows leave of that. (Both are asked, so that there is no branch.)
fn fits(a: u8, b: u8, c: u8, d: u8) -> bool
    ensures { result ≡ fits a b c d }
{
    let begins = (d < 0x80) | ((0xc2 <= d) & (d <= 0xf4));
    let goes_on = (tail_low(c) <= d) & (d <= tail_high(c));
    if whole(a, b, c) { begins } else { goes_on }
}

// The byte so many places before another; 0 where there is none.
fn byte_before(bytes: &[u8], at: usize, back: usize) -> u8
    requires { (at ≤ length bytes.now) × (1 ≤ back) }
    ensures { result ≡ byte_before bytes.now at back }
{
    if at < back {
        return 0;
    }
    bytes[at - back]
}

// Before a place, is no byte due?
fn whole_at(bytes: &[u8], at: usize) -> bool
    requires { at ≤ length bytes.now }
    ensures { result ≡ whole_at bytes.now at }
{
    whole(
        byte_before(bytes, at, 3),
        byte_before(bytes, at, 2),
        byte_before(bytes, at, 1),
    )
}

// From a place on, the first byte before the end that doesn't fit; the end, or the place, where there is none.
fn singles_end(bytes: &[u8], at: usize, end: usize) -> usize
    requires { (at ≤ length bytes.now) × (end ≤ length bytes.now) }
    ensures { (at ≤ result) × (result ≤ length bytes.now) × Fit bytes.now at result
        × (result < end → fits_at bytes.now result ≡ false) }
{
    let mut a = byte_before(bytes, at, 3);
    let mut b = byte_before(bytes, at, 2);
    let mut c = byte_before(bytes, at, 1);
    for i in at..end {
        let d = bytes[i];
        if !fits(a, b, c, d) {
            return i;
        }
        a = b;
        b = c;
        c = d;
    }
    at.max(end)
}

// Do all bytes of the block at a place fit? (Each is asked, so that the loop has no exit of its own.)
fn block_fits(bytes: &[u8], at: usize) -> bool
    requires { (3 ≤ at) × (at + 16 ≤ length bytes.now) }
    ensures { result ≡ true → Fit bytes.now at (at + 16) }
{
    let mut all = true;
    for i in at..at + BLOCK {
        all = all & fits(bytes[i - 3], bytes[i - 2], bytes[i - 1], bytes[i]);
    }
    all
}

// Are the n bytes at a place all below 80? (Each is asked, as above.)
fn ascii(bytes: &[u8], at: usize, n: usize) -> bool
    requires { at + n ≤ length bytes.now }
    ensures { result ≡ true → Ascii bytes.now at (at + n) }
{
    bytes[at..at + n]
        .iter()
        .fold(true, |all, b| all & (*b < 0x80))
}

// The place after the bytes below 80 that stand at a place, n at a time.
fn ascii_end(bytes: &[u8], at: usize, n: usize) -> usize
    requires { (at ≤ length bytes.now) × (1 ≤ n) }
    ensures { (at ≤ result) × (result ≤ length bytes.now) × Ascii bytes.now at result }
{
    // By hand: over chunks, or over a range by steps, texts of both kinds took a tenth to a third longer.
    let mut i = at;
    while n <= bytes.len() - i {
        if !ascii(bytes, i, n) {
            return i;
        }
        i += n;
    }
    i
}

// The place of the first byte of 80 or more, or how many bytes there are where none is. The last block ends where the
// bytes end and may begin before another's end.
fn first_above(bytes: &[u8]) -> usize
    ensures { (result ≤ length bytes.now) × Ascii bytes.now 0 result }
{
    let far = ascii_end(bytes, 0, ASCII_FRONT);
    let near = ascii_end(bytes, far, BLOCK);
    if BLOCK <= bytes.len() {
        if bytes.len() - near < BLOCK {
            if ascii(bytes, bytes.len() - BLOCK, BLOCK) {
                return bytes.len();
            }
        }
    }
    ascii_end(bytes, near, 1)
}

// From a place on, the end of the whole blocks that fit. Behind a block of bytes below 80 more such are passed.
fn blocks_end(bytes: &[u8], at: usize) -> usize
    requires { (3 ≤ at) × (at ≤ length bytes.now) }
    ensures { (at ≤ result) × (result ≤ length bytes.now) × Fit bytes.now at result }
{
    // By hand: a turn passes one block, or one and all bytes below 80 behind it, so how far it goes is known only then.
    let mut i = at;
    while BLOCK <= bytes.len() - i {
        if ascii(bytes, i, BLOCK) & whole_at(bytes, i) {
            i = ascii_end(bytes, i + BLOCK, ASCII_BEHIND);
        } else {
            if !block_fits(bytes, i) {
                return i;
            }
            i += BLOCK;
        }
    }
    i
}

// From a place on, as far as blocks tell: single bytes up to the first block, blocks, and a last one as above.
fn far_end(bytes: &[u8], at: usize) -> usize
    requires { at ≤ length bytes.now }
    ensures { (at ≤ result) × (result ≤ length bytes.now) × Fit bytes.now at result }
{
    if bytes.len() < BACK + BLOCK {
        return at;
    }
    let head = singles_end(bytes, at, BACK);
    if head < BACK {
        return head;
    }
    let end = blocks_end(bytes, head);
    if bytes.len() - end < BLOCK {
        if block_fits(bytes, bytes.len() - BLOCK) {
            return bytes.len();
        }
    }
    end
}

// The place of the first bad byte, or how many bytes there are where none is bad, and whether they are UTF-8.
pub fn scan_utf8(bytes: &[u8]) -> Utf8Scan
    ensures { (result ≡ scan_utf8 bytes.now)
        × FirstBad bytes.now result.place
        × ((result.passes ≡ true) ↔ Utf8 bytes.now) }
{
    let above = first_above(bytes);
    if above == bytes.len() {
        return Utf8Scan {
            place: above,
            passes: true,
        };
    }
    let place = singles_end(bytes, far_end(bytes, above), bytes.len());
    Utf8Scan {
        place,
        passes: (place == bytes.len()) & whole_at(bytes, place),
    }
}

// Are the bytes UTF-8?
pub fn is_utf8(bytes: &[u8]) -> bool
    ensures { (result ≡ is_utf8 bytes.now) × ((result ≡ true) ↔ Utf8 bytes.now) }
{
    scan_utf8(bytes).passes
}
