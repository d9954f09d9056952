// What a call answers, as the sample has it: the number, a value, a record, 0 where what the call's own function compares is
// as the sample has it, else 1, and last what a shared allocator adds to a record.

use crate::sample::word;
use allocator::Set;
use instance::PermutationInstance;
use limits::Refused;
use permutation::PermutationRelation;
use sharing::{SharedRelation, VarAllocator};

// How many words an answer has.
const WORDS: usize = 12;

#[derive(Clone, Copy, PartialEq, Eq, Default)]
pub(crate) struct Answer {
    // The documents' number of the outcome, 0 for a yes; of a sum and a product, these.
    number: u32,
    value: u32,
    // The record's width, or one value more.
    third: u32,
    vars: u32,
    queries: u32,
    equations: u32,
    words: u32,
    // A relation's stray count, or an instance's publics.
    last: u32,
    // 1 where what the call left is not as the sample has it.
    differs: u32,
    opened: u32,
    quota: u32,
    obtained: u32,
}

// A length or a place as a word; the greatest word where it is none.
pub(crate) fn count(n: usize) -> u32 {
    u32::try_from(n).unwrap_or(u32::MAX)
}

impl Answer {
    // The answer in a case's words, of which those that are missing at the end are 0; none where there are more.
    pub(crate) fn read(words: &[u32]) -> Option<Answer> {
        if WORDS < words.len() {
            return None;
        }
        Some(Answer {
            number: word(words, 0),
            value: word(words, 1),
            third: word(words, 2),
            vars: word(words, 3),
            queries: word(words, 4),
            equations: word(words, 5),
            words: word(words, 6),
            last: word(words, 7),
            differs: word(words, 8),
            opened: word(words, 9),
            quota: word(words, 10),
            obtained: word(words, 11),
        })
    }

    // A number alone.
    pub(crate) fn of(number: u32) -> Answer {
        Answer {
            number,
            ..Answer::default()
        }
    }

    pub(crate) fn with_value(self, value: u32) -> Answer {
        Answer { value, ..self }
    }

    // With one value more.
    pub(crate) fn with_third(self, third: u32) -> Answer {
        Answer { third, ..self }
    }

    // With a relation's record.
    pub(crate) fn with_relation(self, relation: &PermutationRelation) -> Answer {
        Answer {
            third: relation.width,
            vars: relation.vars,
            queries: relation.queries,
            equations: relation.equations,
            words: relation.words,
            last: relation.stray,
            ..self
        }
    }

    // With an instance's record.
    pub(crate) fn with_instance(self, instance: &PermutationInstance) -> Answer {
        Answer {
            third: instance.width,
            vars: instance.vars,
            queries: instance.queries,
            equations: instance.equations,
            words: instance.words,
            last: instance.publics,
            ..self
        }
    }

    // With the record of a shared allocator.
    pub(crate) fn with_allocator(self, allocator: &VarAllocator) -> Answer {
        Answer {
            vars: allocator.vars,
            opened: allocator.opened,
            ..self
        }
    }

    // With the record of a relation on it.
    pub(crate) fn with_shared(self, relation: &SharedRelation) -> Answer {
        Answer {
            third: relation.width,
            queries: relation.queries,
            equations: relation.equations,
            words: relation.words,
            last: relation.stray,
            quota: relation.quota,
            obtained: relation.obtained,
            ..self
        }
    }

    // With whether what the call left besides is as the sample has it.
    pub(crate) fn with_rest(self, same: bool) -> Answer {
        Answer {
            differs: u32::from(!same),
            ..self
        }
    }
}

// The number of an outcome.
impl From<Result<(), Refused>> for Answer {
    fn from(outcome: Result<(), Refused>) -> Answer {
        Answer::of(limits::number(&outcome))
    }
}

// The number, and the value or 0.
impl From<Result<u32, Refused>> for Answer {
    fn from(value: Result<u32, Refused>) -> Answer {
        match value {
            Ok(value) => Answer::of(0).with_value(value),
            Err(refused) => Answer::of(refused.0),
        }
    }
}

// The number, and 1 where it is so.
impl From<Result<bool, Refused>> for Answer {
    fn from(says: Result<bool, Refused>) -> Answer {
        match says {
            Ok(says) => Answer::of(0).with_value(u32::from(says)),
            Err(refused) => Answer::of(refused.0),
        }
    }
}

// The number, the value or 0, and 1 where there is one.
impl From<Result<Option<u32>, Refused>> for Answer {
    fn from(held: Result<Option<u32>, Refused>) -> Answer {
        match held {
            Ok(Some(value)) => Answer::of(0).with_value(value).with_third(1),
            Ok(None) => Answer::of(0),
            Err(refused) => Answer::of(refused.0),
        }
    }
}

// The number, 0, and 1 where the set is fresh.
impl From<Result<Set, Refused>> for Answer {
    fn from(set: Result<Set, Refused>) -> Answer {
        Answer::of(limits::number(&set)).with_third(count(allocator::set_fresh(set)))
    }
}

// The number, and the record or zeros.
impl From<Result<PermutationRelation, Refused>> for Answer {
    fn from(made: Result<PermutationRelation, Refused>) -> Answer {
        match made {
            Ok(relation) => Answer::of(0).with_relation(&relation),
            Err(refused) => Answer::of(refused.0),
        }
    }
}

// The same of an instance.
impl From<Result<PermutationInstance, Refused>> for Answer {
    fn from(made: Result<PermutationInstance, Refused>) -> Answer {
        match made {
            Ok(instance) => Answer::of(0).with_instance(&instance),
            Err(refused) => Answer::of(refused.0),
        }
    }
}
