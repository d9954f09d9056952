// Cases counted by their operation, and what is printed of them.

use crate::sample::Case;
use std::io;

// The place of how many cases there are, behind those of the operations.
const CASES: usize = 38;

// That of how many of them differ.
const DIFFERENT: usize = 39;

// That of the word of the sample at which the last of these begins.
const LAST: usize = 40;

// How many places there are.
const KINDS: usize = 41;

// At an operation's number, how many of its cases agree; behind these the totals.
#[derive(Clone, Copy)]
pub(crate) struct Tally {
    of: [u64; KINDS],
}

// A number and its name, and nothing where that has no bytes.
fn print_line(rt: &impl Print, n: u64, name: &[u8]) -> io::Result<()> {
    if name.is_empty() {
        return Ok(());
    }
    rt.print(n)?;
    rt.write_all(name)
}

impl Tally {
    // Before the first case.
    pub(crate) fn new() -> Tally {
        Tally { of: [0; KINDS] }
    }

    // One more at a place, if there is such a place. A count goes on from 0 where it can grow no more.
    fn grow(&mut self, at: usize) {
        if at < KINDS {
            self.of[at] = self.of[at].wrapping_add(1);
        }
    }

    // One case more, which agrees, by the number of its operation.
    pub(crate) fn agrees(&mut self, number: u32) {
        self.grow(CASES);
        self.grow(number as usize);
    }

    // One case more, which differs, at a word of the sample.
    pub(crate) fn differs(&mut self, place: usize) {
        self.grow(CASES);
        self.of[LAST] = place as u64;
        self.grow(DIFFERENT);
    }

    // A line for each operation and each total, by the names that the sample begins with.
    pub(crate) fn print(&self, rt: &impl Print, names: &Case) -> io::Result<()> {
        for (k, n) in self.of.iter().enumerate() {
            print_line(rt, *n, names.text_of(k))?;
        }
        Ok(())
    }
}
