// `validated` (the source's `PermutationInstance::validated`): 16, then 12 to 15, on parts that lent stores
// hold.
//
// Scratch has a word per wire: 0, or 1 where the wire is bound. Publics and queries bind, in one pass over
// each; then the terms are asked one by one, with these marks for counts and no slots. The walk over the terms
// is that of a relation's gate too (`use_gate`), with its slots and use counts. Words that a store lacks count
// as 0 and slots that are lacking as unassigned, as in the definitions.

#![tactic(auto, unfolding(limits::specs::Questions::ask, limits::specs::Questions::first_of_two))]

ghost use Rattle.std.specs.Prelude.{◌≡◌, ◌≤◌, length, drop, get_or, replicate};
ghost use Rattle.limits.specs.Numbers.{unassigned};
ghost use Rattle.limits.specs.Outcome.{outcome_of};
ghost use Rattle.limits.specs.Questions.{first_no};
ghost use Rattle.expr.specs.Equation.{terms_at, equations_at};
ghost use Rattle.instance.specs.Parts.{pair_vars, pairs_at, parts_of};
ghost use Rattle.validated.specs.Validated.{bound_by, gate_terms_asks, termwise_asks, gate_no, AsksValidated};
ghost use Rattle.validated.specs.Marks.{Marking};

use held::{held_pieces, held_words, size_at, word_at};
use instance::PermutationInstance;
use limits::{Refused, UNASSIGNED};

// Mark the wires of the first n pairs. Is every one of them below the count?
fn mark_publics(marks: &mut [u32], vars: u32, s: &[u32], n: u32) -> bool
    requires { vars ≤ length marks.old }
    ensures { Marking vars (pair_vars (pairs_at n s.now)) marks.old result marks.new }
{
    for i in 0..n as usize {
        let x = word_at(s, 2 * i);
        if vars <= x {
            return false;
        }
        marks[x as usize] = 1;
        if s.len() <= 2 * i {
            return true;
        }
    }
    true
}

// Mark the wires of the queries. Is every one of them below the count?
fn mark_queries(marks: &mut [u32], vars: u32, s: &[u32]) -> bool
    requires { vars ≤ length marks.old }
    ensures { Marking vars s.now marks.old result marks.new }
{
    for x in s {
        if vars <= *x {
            return false;
        }
        marks[*x as usize] = 1;
    }
    true
}

// The slot at place i, or unassigned past the end.
fn slot_at(slots: &[u32], i: usize) -> u32
    ensures { result ≡ get_or slots.now i unassigned }
{
    if i < slots.len() {
        return slots[i];
    }
    UNASSIGNED
}

// 15: is the wire's slot assigned, or its count above 0? The count is looked at only where the slot is not.
fn is_bound(slots: &[u32], uses: &[u32], x: u32) -> bool
    ensures { result ≡ bound_by slots.now uses.now x }
{
    if slot_at(slots, x as usize) != UNASSIGNED {
        return true;
    }
    0 < word_at(uses, x as usize)
}

// 14 and 15 of the t terms from place `at` on.
fn ask_terms(
    vars: u32,
    slots: &[u32],
    uses: &[u32],
    s: &[u32],
    at: usize,
    t: u32,
) -> Result<(), Refused>
    ensures { result ≡ outcome_of (first_no (gate_terms_asks vars (bound_by slots.now uses.now) (terms_at t (drop at s.now)))) }
{
    let mut i = at;
    for _ in 0..t {
        let x = word_at(s, i);
        limits::ask(14, x < vars)?;
        if s.len() <= i {
            return Ok(());
        }
        if word_at(s, i + 1) != 0 {
            limits::ask(15, is_bound(slots, uses, x))?;
        }
        i += 2;
    }
    Ok(())
}

// 14 and 15 of n equations in their words, equation by equation, with what slots and counts bind.
pub fn ask_equations(
    vars: u32,
    slots: &[u32],
    uses: &[u32],
    s: &[u32],
    n: u32,
) -> Result<(), Refused>
    ensures { result ≡ outcome_of (first_no (termwise_asks vars (bound_by slots.now uses.now) (equations_at n s.now))) }
{
    let mut at: usize = 0;
    for _ in 0..n {
        if s.len() <= at {
            return Ok(());
        }
        ask_terms(vars, slots, uses, s, at + 1, s[at])?;
        at += size_at(s, at);
    }
    Ok(())
}

// 16, then 12 to 15, with marks that are all 0.
fn validated(
    ins: &PermutationInstance,
    publics: &[u32],
    queries: &[u32],
    equations: &[u32],
    marks: &mut [u32],
) -> Result<(), Refused>
    requires { marks.old ≡ replicate (length marks.old) 0 }
    ensures { result ≡ outcome_of (gate_no (parts_of ins.now publics.now queries.now equations.now) (length marks.old)) }
{
    let vars = ins.vars;
    let pairs = held_words(publics, 2 * ins.publics as usize);
    let cells = held_pieces(queries, ins.width, ins.queries);
    let terms = held_words(equations, ins.words as usize);
    limits::ask(16, vars as usize <= marks.len())?;
    limits::ask(12, mark_publics(marks, vars, pairs, ins.publics))?;
    limits::ask(13, mark_queries(marks, vars, cells))?;
    ask_equations(vars, &[], marks, terms, ins.equations)
}

// 16, then 12 to 15. Scratch may hold anything before, and is all 0 afterwards.
pub fn ask_validated(
    ins: &PermutationInstance,
    publics: &[u32],
    queries: &[u32],
    equations: &[u32],
    scratch: &mut [u32],
) -> Result<(), Refused>
    ensures { AsksValidated (parts_of ins.now publics.now queries.now equations.now)
        (length scratch.old) result scratch.new }
{
    words::fill(scratch, 0);
    let answer = validated(ins, publics, queries, equations, scratch);
    words::fill(scratch, 0);
    answer
}
