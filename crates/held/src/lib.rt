// What is asked of parts that lent stores hold: 2, whether the counts fit the stores, and 11, whether what
// the stores hold is sound. Of an instance's parts, of a relation's and of a trace.
//
// A part is the first words of its store, as many as the record says. Words that a store lacks count as 0,
// as in the definitions, so that each function here answers on every input; where the counts fit, as 2 asks,
// none are lacking.

#![tactic(auto, unfolding(limits::specs::Questions::ask, limits::specs::Questions::first_of_two))]

ghost use Rattle.std.specs.Prelude.{◌≡◌, [], ◌∷◌, ◌+◌, ◌*◌, ◌≤◌, length, take, drop, get_or};
ghost use Rattle.limits.specs.Outcome.{asked, outcome_of};
ghost use Rattle.limits.specs.Questions.{first_no};
ghost use Rattle.words.specs.Pieces.{words_of};
ghost use Rattle.utf8.specs.Utf8.{is_utf8};
ghost use Rattle.expr.specs.Equation.{equation_at, equations_held, size_at};
ghost use Rattle.held.specs.Held.{parts_asks, parts_sound_asks, instance_asks, equations_sound, publics_sound, slots_sound};

use instance::PermutationInstance;
use limits::{LABEL_END, MAX_COUNT, P, Refused, UNASSIGNED};

// ---- parts of stores

// The first n words of a store, or all of them where it has fewer.
pub fn held_words(s: &[u32], n: usize) -> &[u32]
    ensures { result.now ≡ take n s.now }
{
    if n <= s.len() {
        return &s[..n];
    }
    s
}

// The words of the first n pieces of 2 · width words, or all where the store has fewer.
pub fn held_pieces(s: &[u32], width: u32, n: u32) -> &[u32]
    ensures { result.now ≡ take (words_of width n) s.now }
{
    let half = n as u64 * width as u64;
    if half <= s.len() as u64 / 2 {
        let end = 2 * half as usize;
        return &s[..end];
    }
    s
}

// The word at place i, or 0 past the end.
pub fn word_at(s: &[u32], i: usize) -> u32
    ensures { result ≡ get_or s.now i 0 }
{
    if i < s.len() {
        return s[i];
    }
    0
}

// How many words the equation at place `at` takes.
pub fn size_at(s: &[u32], at: usize) -> usize
    ensures { result ≡ size_at (drop at s.now) }
{
    2 + 2 * word_at(s, at) as usize
}

// ---- 11 of each part

// Public wires are below 2^30, their units below p.
fn publics_sound(held: &[u32], n: u32) -> bool
    ensures { result ≡ publics_sound n held.now }
{
    // By places: over chunks a pair takes a third more instructions, most of them to ask how long the chunk is.
    for i in 0..n as usize {
        let at = 2 * i;
        if held.len() <= at {
            return true;
        }
        if MAX_COUNT <= held[at] {
            return false;
        }
        if P <= word_at(held, at + 1) {
            return false;
        }
    }
    true
}

// The same of n terms from place `at` on, none of them lacking. (Each is looked at, so that the loop has no
// exit of its own.)
fn terms_sound(s: &[u32], at: usize, n: u32) -> bool
    requires { at + 2 * n ≤ length s.now }
    ensures { result ≡ publics_sound n (drop at s.now) }
{
    let mut sound = true;
    for term in s[at..at + 2 * n as usize].chunks_exact(2) {
        sound = sound & ((term[0] < MAX_COUNT) & (term[1] < P));
    }
    sound
}

// Are the wires, weights and image of the equation at place `at` sound? None of its words is lacking.
fn equation_sound(s: &[u32], at: usize) -> bool
    requires { at + (2 + 2 * get_or s.now at 0) ≤ length s.now }
    ensures { result ≡ equations_held (equation_at (drop at s.now) ∷ []) }
{
    let t = s[at];
    let image = s[at + 1 + 2 * t as usize];
    terms_sound(s, at + 1, t) & (image < P)
}

// The n equations end exactly at the end of the words, and all that they hold is sound.
fn equations_sound(held: &[u32], n: u32) -> bool
    ensures { result ≡ equations_sound n held.now }
{
    let mut at: usize = 0;
    for _ in 0..n {
        let size = size_at(held, at);
        if held.len() - at < size {
            return false;
        }
        if !equation_sound(held, at) {
            return false;
        }
        at += size;
    }
    at == held.len()
}

// Every slot is a unit, or unassigned. (Each is looked at, so that the loop has no exit of its own.)
fn slots_sound(held: &[u32]) -> bool
    ensures { result ≡ slots_sound held.now }
{
    let mut sound = true;
    for x in held {
        sound = sound & ((*x < P) | (*x == UNASSIGNED));
    }
    sound
}

// ---- the same as question 11

// Of the equations: do they end where the words end, and is what they hold sound?
pub fn ask_equations_sound(held: &[u32], n: u32) -> Result<(), Refused>
    ensures { result ≡ asked 11 (equations_sound n held.now) }
{
    limits::ask(11, equations_sound(held, n))
}

// Of the slots: is each a unit, or unassigned?
pub fn ask_slots_sound(held: &[u32]) -> Result<(), Refused>
    ensures { result ≡ asked 11 (slots_sound held.now) }
{
    limits::ask(11, slots_sound(held))
}

// Of the label: is it UTF-8?
pub fn ask_utf8(label: &[u8]) -> Result<(), Refused>
    ensures { result ≡ asked 11 (is_utf8 label.now) }
{
    limits::ask(11, utf8::is_utf8(label))
}

// ---- an instance's parts

// Question 2 of an instance's parts, by the stores' lengths.
pub fn ask_parts(
    ins: &PermutationInstance,
    publics: usize,
    queries: usize,
    equations: usize,
) -> Result<(), Refused>
    ensures { result ≡ outcome_of (first_no (parts_asks ins.now publics queries equations)) }
{
    limits::ask_store(publics)?;
    limits::ask_store(queries)?;
    limits::ask_store(equations)?;
    limits::ask(2, 2 * ins.publics as usize <= publics)?;
    words::ask_pieces(ins.width, ins.queries, queries, 2)?;
    limits::ask(2, ins.words as usize <= equations)?;
    limits::ask(2, 2 * ins.equations as usize <= equations)
}

// Question 11 of an instance's parts and its label.
pub fn ask_parts_sound(
    ins: &PermutationInstance,
    label: &[u8],
    publics: &[u32],
    queries: &[u32],
    equations: &[u32],
) -> Result<(), Refused>
    ensures { result ≡ outcome_of (first_no (parts_sound_asks ins.now label.now publics.now queries.now equations.now)) }
{
    let pairs = held_words(publics, 2 * ins.publics as usize);
    ask_equations_sound(held_words(equations, ins.words as usize), ins.equations)?;
    limits::ask(11, publics_sound(pairs, ins.publics))?;
    words::ask_below(held_pieces(queries, ins.width, ins.queries), MAX_COUNT, 11)?;
    ask_utf8(label)
}

// Questions 1, 2 and 11 of an instance's parts and its label.
pub fn ask_instance(
    ins: &PermutationInstance,
    label: &[u8],
    publics: &[u32],
    queries: &[u32],
    equations: &[u32],
) -> Result<(), Refused>
    ensures { result ≡ outcome_of (first_no (instance_asks ins.now label.now publics.now queries.now equations.now)) }
{
    limits::ask_width(ins.width)?;
    ask_parts(ins, publics.len(), queries.len(), equations.len())?;
    limits::ask(2, label.len() < LABEL_END)?;
    ask_parts_sound(ins, label, publics, queries, equations)
}
