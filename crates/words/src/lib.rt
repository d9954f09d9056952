// Lent stores of u32 words: filled, written at a place, and tested word by word; questions of stores of pieces.
//
// Each function is total and says what every word of the store is afterwards.

#![tactic(auto, unfolding(limits::specs::Questions::ask, limits::specs::Questions::first_of_two))]

ghost use Rattle.std.specs.Prelude.{◌≡◌, length, replicate, leb};
ghost use Rattle.limits.specs.Questions.{first_no};
ghost use Rattle.limits.specs.Outcome.{asked, outcome_of, outcome};
ghost use Rattle.words.specs.Store.{all_below, fit_words};
ghost use Rattle.words.specs.Pieces.{words_of, held_asks, one_more_asks, half_asks, halves_asks};

use limits::Refused;

// Every word of s becomes v.
pub fn fill(s: &mut [u32], v: u32)
    ensures { s.new ≡ replicate (length s.old) v }
{
    // By a loop: the library's fill sets the last word apart, so that 8 words take it 1.7 times as long.
    for x in s.iter_mut() {
        *x = v;
    }
}

// The words at place `at` of the store; where they do not fit, the store stays as it is.
pub fn put(out: &mut [u32], at: usize, words: &[u32])
    ensures { out.new ≡ fit_words at words.now out.old }
{
    if at <= out.len() && words.len() <= out.len() - at {
        // By a loop: the library's copy would have the archive ask for `memmove`, and takes a third longer for one word.
        for (i, word) in words.iter().enumerate() {
            out[at + i] = *word;
        }
    }
}

// Is every word of s below the bound? (Each word is looked at, so that the loop has no exit of its own.)
pub fn all_below(s: &[u32], bound: u32) -> bool
    ensures { result ≡ all_below bound s.now }
{
    s.iter().copied().fold(true, |below, x| below & (x < bound))
}

// Question k: is every word of s below the bound?
pub fn ask_below(s: &[u32], bound: u32, k: u32) -> Result<(), Refused>
    ensures { result ≡ asked k (all_below bound s.now) }
{
    limits::ask(k, all_below(s, bound))
}

// Question k: does a store of len words hold n pieces of 2 · width words?
pub fn ask_pieces(width: u32, n: u32, len: usize, k: u32) -> Result<(), Refused>
    ensures { result ≡ asked k (leb (words_of width n) len) }
{
    let half = n as u64 * width as u64;
    limits::ask(k, half <= len as u64 / 2)
}

// Question 2 of a store of n pieces: its size, and that they fit it.
pub fn ask_held(width: u32, n: u32, len: usize) -> Result<(), Refused>
    ensures { result ≡ outcome_of (first_no (held_asks width n len)) }
{
    limits::ask_store(len)?;
    ask_pieces(width, n, len, 2)
}

// Question 10: does it hold one piece more?
pub fn ask_one_more(width: u32, n: u32, len: usize) -> Result<(), Refused>
    ensures { result ≡ outcome_of (first_no (one_more_asks width n len)) }
{
    let wanted = n as u64 * width as u64 + width as u64;
    limits::ask(10, wanted <= len as u64 / 2)
}

// Questions 9 and k of one half of a piece: has it `width` words, and is each below the bound?
pub fn ask_half(width: u32, k: u32, bound: u32, half: &[u32]) -> Result<(), Refused>
    ensures { result ≡ outcome (half_asks width k bound half.now) }
{
    limits::ask(9, half.len() == width as usize)?;
    ask_below(half, bound, k)
}

// The same of both halves, 9 first.
pub fn ask_halves(
    width: u32,
    k: u32,
    bound: u32,
    first: &[u32],
    second: &[u32],
) -> Result<(), Refused>
    ensures { result ≡ outcome (halves_asks width k bound first.now second.now) }
{
    limits::ask(9, first.len() == width as usize)?;
    limits::ask(9, second.len() == width as usize)?;
    ask_below(first, bound, k)?;
    ask_below(second, bound, k)
}
