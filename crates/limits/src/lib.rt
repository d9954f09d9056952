// The numbers that every call keeps to, and how questions are put: in order, up to the first no.
//
// A call of the documents answers the number of the first of its questions that says no, or its result. In
// code each question is a line that ends in `?`, so the call goes on only where it says yes.

#![tactic(auto, unfolding(crate::specs::Questions::ask, crate::specs::Questions::first_of_two))]

ghost use Rattle.std.specs.Prelude.{◌≡◌};
ghost use Rattle.limits.specs.Questions.{first_no};
ghost use Rattle.limits.specs.Outcome.{asked, outcome_of, answer_number};
ghost use Rattle.limits.specs.Asks.{width_asks, store_asks, count_asks};

// The BabyBear prime p: a unit is below it.
pub const P: u32 = 2013265921;

// The mark of a wire that has no value yet (document 01: F).
pub const UNASSIGNED: u32 = 4294967295;

// The greatest number of wires, and of words in a lent store: 2^30 (the source's `FieldVar::MAX_COUNT`).
pub const MAX_COUNT: u32 = 1073741824;

// A word is below it: 2^32.
pub const WORD_END: usize = 4294967296;

// The greatest width of a permutation; the least is 1.
pub const MAX_WIDTH: u32 = 24;

// As many words: a state, or a row of a matrix, of the greatest width.
pub const STATE_WORDS: usize = 24;

// The words of a matrix of the greatest width.
pub const MATRIX_WORDS: usize = 576;

// 2^32: a label has fewer bytes.
pub const LABEL_END: usize = 4294967296;

// The number of the question that said no, as docs/NUMBERS.md has it. (No enum with names: the documents, C and every
// theorem of a refusal have the number.)
#[derive(Clone, Copy, PartialEq, Eq)]
pub struct Refused(pub u32);

// One question, number k: is the answer yes?
pub fn ask(k: u32, says: bool) -> Result<(), Refused>
    ensures { result ≡ asked k says }
{
    if says { Ok(()) } else { Err(Refused(k)) }
}

// Question 1.
pub fn ask_width(width: u32) -> Result<(), Refused>
    ensures { result ≡ outcome_of (first_no (width_asks width)) }
{
    ask(1, 1 <= width)?;
    ask(1, width <= MAX_WIDTH)
}

// Question 2 of a lent word store, by its length.
pub fn ask_store(len: usize) -> Result<(), Refused>
    ensures { result ≡ outcome_of (first_no (store_asks len)) }
{
    ask(2, len <= MAX_COUNT as usize)
}

// Question 2 of a relation's wire count.
pub fn ask_count(count: u32) -> Result<(), Refused>
    ensures { result ≡ outcome_of (first_no (count_asks count)) }
{
    ask(2, 1 <= count)?;
    ask(2, count <= MAX_COUNT)
}

// The documents' number of an answer: 0 where it is accepted.
pub fn number<T>(answer: &Result<T, Refused>) -> u32
    ensures { result ≡ answer_number answer.now }
{
    match answer {
        Ok(_) => 0,
        Err(refused) => refused.0,
    }
}
