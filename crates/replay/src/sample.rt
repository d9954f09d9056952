// The sample as cases, and a case as lists.
//
// A case begins with its head, which is its operation and LISTS times how many lists it has. Then come how many words the
// case has, the places in it at which its lists begin, and the lists. What a list is goes by its number. Nothing in the
// sample is trusted: a word that it lacks is 0, and a list that a case does not have is empty.

ghost use Rattle.std.specs.Prelude.{◌-◌, ◌<◌, ◌≤◌, length};
ghost use Rattle.std.specs.Iterator.{at_most};

use crate::answer::Answer;
use crate::given::Given;
use crate::operation::Operation;

// What a head counts lists by.
const LISTS: u32 = 256;

// The longest store.
pub(crate) const WORDS: usize = 4096;

// The word at a place, or 0 past the end.
pub(crate) fn word(words: &[u32], at: usize) -> u32 {
    words.get(at).copied().unwrap_or(0)
}

// The bytes from one place to another, or as many of them as there are.
fn between(bytes: &[u8], from: usize, end: usize) -> &[u8] {
    let end = end.min(bytes.len());
    &bytes[from.min(end)..end]
}

// A store that a call may write: its words before the call, and what they must be afterwards.
#[derive(Clone, Copy)]
pub(crate) struct Store<'a> {
    before: &'a [u32],
    after: &'a [u32],
}

impl Store<'_> {
    // The words before the call, at the front of a buffer; where it does not hold them, all of it as it is.
    pub(crate) fn lend<'b>(&self, buffer: &'b mut [u32]) -> &'b mut [u32] {
        let n = self.before.len().min(buffer.len());
        words::put(buffer, 0, self.before);
        &mut buffer[..n]
    }

    // Are the words those that must be there afterwards? Words that the list lacks at its end are 0.
    pub(crate) fn is_left(&self, words: &[u32]) -> bool {
        words
            .strip_prefix(self.after)
            .is_some_and(|rest| rest.iter().all(|word| *word == 0))
    }
}

// A case: its words, their bytes, and the word of the sample at which it begins.
#[derive(Clone, Copy)]
pub(crate) struct Case<'a> {
    words: &'a [u32],
    bytes: &'a [u8],
    pub(crate) place: usize,
}

impl<'a> Case<'a> {
    // Where list k begins: at the case's end where it does not have it.
    fn start(&self, k: usize) -> usize
        ensures { result ≤ length self.now.words.now }
    {
        let end = self.words.len();
        let lists = word(self.words, 0) / LISTS;
        if k < lists as usize {
            end.min(word(self.words, k + 2) as usize)
        } else {
            end
        }
    }

    // The words of list k.
    fn list(&self, k: usize) -> &'a [u32]
        requires { k < 64 }
    {
        let end = self.start(k + 1);
        &self.words[end.min(self.start(k))..end]
    }

    // The bytes of list k, which has their number and then four in each word.
    pub(crate) fn text_of(&self, k: usize) -> &'a [u8] {
        let at = self.start(k);
        let from = 4 * at + 4;
        between(self.bytes, from, from + word(self.words, at) as usize)
    }

    // The store that is list k before the call, and the list after it afterwards.
    fn store(&self, k: usize) -> Store<'a>
        requires { k < 63 }
    {
        Store {
            before: self.list(k),
            after: self.list(k + 1),
        }
    }

    // The number of what the case calls.
    pub(crate) fn number(&self) -> u32 {
        word(self.words, 0) % LISTS
    }

    // What the case calls.
    pub(crate) fn operation(&self) -> Operation {
        Operation::from(self.number())
    }

    // The numbers that are handed in.
    pub(crate) fn given(&self) -> Given<'a> {
        Given(self.list(0))
    }

    // What the call must answer; none where it has more words than an answer.
    pub(crate) fn answer(&self) -> Option<Answer> {
        Answer::read(self.list(1))
    }

    // Bytes: a label, what is read, or what a trace's output must be.
    pub(crate) fn text(&self) -> &'a [u8] {
        self.text_of(2)
    }

    // The store that every call is lent.
    pub(crate) fn first(&self) -> Store<'a> {
        self.store(3)
    }

    // Lists that are only read.
    pub(crate) fn one(&self) -> &'a [u32] {
        self.list(5)
    }

    // The first of them as bytes.
    pub(crate) fn one_text(&self) -> &'a [u8] {
        self.text_of(5)
    }

    pub(crate) fn two(&self) -> &'a [u32] {
        self.list(6)
    }

    // Bytes: a name, or what an instance's output or a label that is read must be.
    pub(crate) fn other(&self) -> &'a [u8] {
        self.text_of(7)
    }

    // More lists that are only read.
    pub(crate) fn three(&self) -> &'a [u32] {
        self.list(8)
    }

    pub(crate) fn four(&self) -> &'a [u32] {
        self.list(9)
    }

    pub(crate) fn five(&self) -> &'a [u32] {
        self.list(10)
    }

    // More stores that a call may write.
    pub(crate) fn second(&self) -> Store<'a> {
        self.store(11)
    }

    pub(crate) fn third(&self) -> Store<'a> {
        self.store(13)
    }

    // The last of them is scratch, which must be all 0 afterwards.
    pub(crate) fn fourth(&self) -> Store<'a> {
        self.store(15)
    }
}

// The cases of a sample in order, from the one that begins at a place on.
#[derive(Drop)]
pub(crate) struct Cases<'a> {
    words: &'a [u32],
    bytes: &'a [u8],
    place: usize,
}

impl<'a> Cases<'a> {
    pub(crate) fn new(words: &'a [u32], bytes: &'a [u8]) -> Self {
        Cases {
            words,
            bytes,
            place: 0,
        }
    }

    // The first case, which has the names; their bytes may lie behind its end.
    pub(crate) fn names(&mut self) -> Option<Case<'a>> {
        let bytes = self.bytes;
        self.next().map(|names| Case { bytes, ..names })
    }

    // Is the end mark, one word, all that is left?
    pub(crate) fn is_at_end(&self) -> bool {
        self.words.len().checked_sub(self.place) == Some(1)
    }

    pub(crate) fn place(&self) -> usize {
        self.place
    }
}

impl<'a> Iterator for Cases<'a> {
    type Item = Case<'a>;

    ghost remaining = { λ s. at_most (length s.words.now - s.place) };

    // The case at the place, or as much of it as there is.
    fn next(&mut self) -> Option<Case<'a>> {
        let place = self.place;
        let rest = self.words.get(place..)?;
        let n = (*rest.get(1)? as usize).min(rest.len());
        if n == 0 {
            return None;
        }
        self.place += n;
        Some(Case {
            words: &rest[..n],
            bytes: between(self.bytes, 4 * place, 4 * (place + n)),
            place,
        })
    }
}
