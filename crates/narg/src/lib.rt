// u32 words in bytes, little-endian: read and written at a cursor (spongefish's NargReader, cursor first).
//
// A cursor is a place in lent bytes; it goes in and comes back by value and may stand anywhere, also past the
// end. Every function answers on every input; what is refused writes nothing.

#![tactic(auto)]

ghost use Rattle.std.specs.Prelude.{◌≡◌, ◌+◌, ◌*◌, ◌-◌, ◌/◌, ◌≤◌, min, length, drop};
ghost use Rattle.std.specs.Simd.{first_chunks};
ghost use Rattle.words.specs.Store.{put_words, fit_words};
ghost use Rattle.narg.specs.Bytes.{u32_bytes};
ghost use Rattle.narg.specs.Reader.{word, below, times, each};
ghost use Rattle.narg.specs.Cursor.{read_u32, put_at, put_u32, put_u32_out, item_of, store_of, read_words, read_words_out, read_units, read_units_out, read_vars, read_vars_out};

use limits::Refused;

// How many bytes a word has.
const WORD: usize = 4;

// A place in bytes.
#[derive(Clone, Copy)]
pub struct Cursor {
    pub at: usize,
}

// The bytes from a place on: none past the end.
fn behind(bytes: &[u8], at: usize) -> &[u8]
    ensures { result.now ≡ drop at bytes.now }
{
    &bytes[at.min(bytes.len())..]
}

// The word at the cursor, with the cursor past it; None where the bytes end before it.
pub fn read_u32(bytes: &[u8], c: Cursor) -> Option<(u32, Cursor)>
    ensures { result ≡ read_u32 bytes.now c.at }
{
    let at = c.at;
    let word = behind(bytes, at).first_chunk::<WORD>()?;
    Some((u32::from_le_bytes(*word), Cursor { at: at + WORD }))
}

// The four bytes of a word, where the output holds them.
fn store_u32(out: &mut [u8], at: usize, value: u32)
    requires { at + 4 ≤ length out.old }
    ensures { out.new ≡ put_words at (u32_bytes value) out.old }
{
    out[at..at + WORD].copy_from_slice(&value.to_le_bytes());
}

// The word's four bytes at the cursor: the cursor past them, or None where the output does not hold them.
pub fn put_u32(out: &mut [u8], c: Cursor, value: u32) -> Option<Cursor>
    ensures { (result ≡ put_u32 out.old c.at value) × (out.new ≡ put_u32_out out.old c.at value) }
{
    let at = c.at;
    if out.len() < at {
        return None;
    }
    if out.len() - at < WORD {
        return None;
    }
    store_u32(out, at, value);
    Some(Cursor { at: at + WORD })
}

// The words in order, four bytes each, at the cursor: the cursor past them, or None.
pub fn put_words(out: &mut [u8], c: Cursor, words: &[u32]) -> Option<Cursor>
    ensures { (result ≡ put_at out.old c.at (each u32_bytes words.now))
        × (out.new ≡ fit_words c.at (each u32_bytes words.now) out.old) }
{
    let at = c.at;
    if out.len() < at {
        return None;
    }
    if (out.len() - at) / WORD < words.len() {
        return None;
    }
    for (i, word) in words.iter().enumerate() {
        store_u32(out, at + WORD * i, *word);
    }
    Some(Cursor {
        at: at + WORD * words.len(),
    })
}

// The words from a place on, as four bytes each: n of them, or as many as the bytes hold.
fn words_held(bytes: &[u8], at: usize, n: usize) -> &[[u8; WORD]]
    ensures { result.now ≡ first_chunks 4 (min n ((length bytes.now - at) / 4)) (drop at bytes.now) }
{
    let (words, _) = behind(bytes, at).as_chunks::<WORD>();
    &words[..n.min(words.len())]
}

// The questions of an item of n words at the cursor: each is there (20) and below the bound (k). A word that is not
// there stands behind all that are, so these come first, in a loop that has no exit of its own.
fn ask_words(bytes: &[u8], c: Cursor, n: u32, bound: u32, k: u32) -> Result<Cursor, Refused>
    ensures { result ≡ item_of (c.at + 4 * n) (times (below bound k) n (drop c.at bytes.now)) }
{
    let wanted = n as usize;
    let words = words_held(bytes, c.at, wanted);
    let mut below = true;
    for word in words {
        below = below & (u32::from_le_bytes(*word) < bound);
    }
    if !below {
        return Err(Refused(k));
    }
    if words.len() < wanted {
        return Err(Refused(20));
    }
    Ok(Cursor {
        at: c.at + WORD * wanted,
    })
}

// The n words at the place of the store, where the bytes and the store hold them.
fn store_words(bytes: &[u8], at: usize, out: &mut [u32], place: usize, n: usize)
    requires { (4 * n ≤ length bytes.now - at) × (place + n ≤ length out.old) }
    ensures { out.new ≡ store_of place out.old (times word n (drop at bytes.now)) }
{
    // The bytes hold all n, so the loop's end is n itself: as short as n is, asking again how many they hold costs.
    let (words, _) = behind(bytes, at).as_chunks::<WORD>();
    for (i, word) in words[..n].iter().enumerate() {
        out[place + i] = u32::from_le_bytes(*word);
    }
}

// An item of n words, each below the bound, from the cursor into the store at the place: the cursor past it.
// Questions 20 and k word by word, then 10.
pub fn read_words(
    bytes: &[u8],
    c: Cursor,
    out: &mut [u32],
    place: usize,
    n: u32,
    bound: u32,
    k: u32,
) -> Result<Cursor, Refused>
    ensures { (result ≡ read_words bytes.now c.at out.old place n bound k)
        × (out.new ≡ read_words_out bytes.now c.at out.old place n bound k) }
{
    let at = c.at;
    let count = n as usize;
    let next = ask_words(bytes, c, n, bound, k)?;
    if out.len() < place {
        return Err(Refused(10));
    }
    if out.len() - place < count {
        return Err(Refused(10));
    }
    store_words(bytes, at, out, place, count);
    Ok(next)
}

// An item of n units (the source's units of a public, a step, a weight): below p, else 4.
pub fn read_units(
    bytes: &[u8],
    c: Cursor,
    out: &mut [u32],
    place: usize,
    n: u32,
) -> Result<Cursor, Refused>
    ensures { (result ≡ read_units bytes.now c.at out.old place n)
        × (out.new ≡ read_units_out bytes.now c.at out.old place n) }
{
    read_words(bytes, c, out, place, n, limits::P, 4)
}

// An item of n wires (the source's `FieldVar`s): below 2^30, else 3.
pub fn read_vars(
    bytes: &[u8],
    c: Cursor,
    out: &mut [u32],
    place: usize,
    n: u32,
) -> Result<Cursor, Refused>
    ensures { (result ≡ read_vars bytes.now c.at out.old place n)
        × (out.new ≡ read_vars_out bytes.now c.at out.old place n) }
{
    read_words(bytes, c, out, place, n, limits::MAX_COUNT, 3)
}
