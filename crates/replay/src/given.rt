// The numbers that a case hands in: two arguments, then a record, and last what a call on a shared allocator has besides.

use crate::operation::Operation;
use crate::sample::word;
use instance::PermutationInstance;
use permutation::PermutationRelation;
use sharing::{SharedRelation, VarAllocator};
use witness::PermutationWitness;

// A number that is missing at the end is 0.
#[derive(Clone, Copy)]
pub(crate) struct Given<'a>(pub(crate) &'a [u32]);

impl Given<'_> {
    fn word(&self, at: usize) -> u32 {
        word(self.0, at)
    }

    // The first argument.
    pub(crate) fn x(&self) -> u32 {
        self.word(0)
    }

    // The second argument.
    pub(crate) fn y(&self) -> u32 {
        self.word(1)
    }

    // How many words to read, of a call that has no record.
    pub(crate) fn n(&self) -> u32 {
        self.word(2)
    }

    // The width of the record, or the width alone.
    pub(crate) fn width(&self) -> u32 {
        self.word(2)
    }

    // The record of a relation.
    pub(crate) fn relation(&self) -> PermutationRelation {
        PermutationRelation {
            width: self.word(2),
            vars: self.word(3),
            queries: self.word(4),
            equations: self.word(5),
            words: self.word(6),
            stray: self.word(7),
        }
    }

    // The record of an instance.
    pub(crate) fn instance(&self) -> PermutationInstance {
        PermutationInstance {
            width: self.word(2),
            vars: self.word(3),
            queries: self.word(4),
            equations: self.word(5),
            words: self.word(6),
            publics: self.word(7),
        }
    }

    // The record of a trace, whose steps are the first argument.
    pub(crate) fn witness(&self) -> PermutationWitness {
        PermutationWitness {
            width: self.width(),
            steps: self.x(),
        }
    }

    // What an equation's terms are scaled by.
    pub(crate) fn factor(&self) -> u32 {
        self.word(8)
    }

    // What relations share.
    pub(crate) fn allocator(&self) -> VarAllocator {
        VarAllocator {
            vars: self.word(3),
            opened: self.word(9),
        }
    }

    // The relation's number on its allocator.
    pub(crate) fn index(&self) -> u32 {
        self.word(8)
    }

    // The own record of a relation on an allocator.
    pub(crate) fn shared_relation(&self) -> SharedRelation {
        SharedRelation {
            width: self.word(2),
            queries: self.word(4),
            equations: self.word(5),
            words: self.word(6),
            stray: self.word(7),
            quota: self.word(10),
            obtained: self.word(11),
        }
    }

    // What is called on the allocator.
    pub(crate) fn operation(&self) -> Operation {
        Operation::from(self.word(12))
    }
}
