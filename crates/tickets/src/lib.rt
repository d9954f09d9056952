// Weigh tickets straight into wires (document 02, R-1): the lines of a text act in order like a set list.
//
// The text is lent, 24 bytes to a line, and gone over once. A line's wire is set to its steps; the first line that is
// refused ends the call, and the lines before it stay set and are counted. Every open function answers on every input.

#![tactic(auto, unfolding(limits::specs::Questions::ask, limits::specs::Questions::first_of_two, allocator::specs::Slots::pair_no, crate::specs::Lines::ticket_no, crate::specs::Lines::line_no, crate::specs::Tickets::set_tickets_run))]

ghost use Rattle.std.specs.Prelude.{◌≡◌};
ghost use Rattle.limits.specs.Outcome.{as_is};
ghost use Rattle.allocator.specs.Slots.{pair};
ghost use Rattle.allocator.specs.Assign.{SetsItem, how_far, Runs};
ghost use Rattle.tickets.specs.Lines.{line_pair, ticket_no, line_no, set_lines};
ghost use Rattle.tickets.specs.Tickets.{SetsTickets};

use allocator::{FieldVar, Set, SetPairs};
use baby_bear::BabyBearUnit;
use limits::{MAX_COUNT, P, Refused};
use permutation::PermutationRelation;
use ticket::LINE;

// A ticket text's outcome, how many of its first lines were accepted, and how many of those were fresh: as wide as a
// length, as a text has no limit. (Not in a Result, as `allocator::SetPairs`.)
#[derive(Clone, Copy)]
pub struct SetTickets {
    pub outcome: Result<(), Refused>,
    pub accepted: usize,
    pub fresh: usize,
}

// A wire set to steps, both as wide as their columns. Questions 3, 41, 7, 8.
fn set_steps(count: u32, slots: &mut [u32], wire: u64, steps: u64) -> Result<Set, Refused>
    ensures { SetsItem (ticket_no count) (λ p. p) slots.old (pair wire steps) result slots.new }
{
    limits::ask(3, wire < MAX_COUNT as u64)?;
    limits::ask(41, steps < P as u64)?;
    allocator::assign_var(
        count,
        slots,
        FieldVar(wire as u32),
        BabyBearUnit(steps as u32),
    )
}

// One line. Questions 40, 3, 41, 7, 8.
fn set_line(count: u32, slots: &mut [u32], line: &[u8]) -> Result<Set, Refused>
    ensures { SetsItem (line_no count) line_pair slots.old line.now result slots.new }
{
    let t = ticket::read_line(line).ok_or(Refused(40))?;
    set_steps(count, slots, t.wire, ticket::grams_to_steps(t.grams))
}

// The lines of a text in turn, up to the first that is refused; earlier ones stay set.
fn set_lines(count: u32, slots: &mut [u32], text: &[u8]) -> SetPairs
    ensures { Runs how_far (set_lines count slots.old text.now) result slots.new }
{
    let mut accepted: usize = 0;
    let mut fresh: usize = 0;
    for line in text.chunks(LINE) {
        match set_line(count, slots, line) {
            Ok(set) => fresh += allocator::fresh_of(set),
            Err(refused) => {
                return SetPairs {
                    outcome: Err(refused),
                    accepted,
                    fresh,
                };
            }
        }
        accepted += 1;
    }
    SetPairs {
        outcome: Ok(()),
        accepted,
        fresh,
    }
}

// Set each wire that a text's ticket lines name to its steps. Questions 1 and 2, then 40, 3, 41, 7, 8 line by line.
pub fn set_tickets(rel: &PermutationRelation, slots: &mut [u32], text: &[u8]) -> SetTickets
    ensures { SetsTickets as_is rel.now slots.old text.now result slots.new }
{
    match permutation::ask_relation(rel, slots.len()) {
        Err(refused) => SetTickets {
            outcome: Err(refused),
            accepted: 0,
            fresh: 0,
        },
        Ok(()) => {
            let run = set_lines(rel.vars, slots, text);
            SetTickets {
                outcome: run.outcome,
                accepted: run.accepted,
                fresh: run.fresh,
            }
        }
    }
}
