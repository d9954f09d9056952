// Whether a trace satisfies an instance (the source's `is_witness_valid`).
//
// The instance's parts are taken as held, gated or not. Scratch has a word per wire for what the wire
// carries: 0 for nothing, and for a unit the unit and one more. It may hold anything at entry and is all 0
// afterwards, whatever is answered.

#![tactic(auto, unfolding(limits::specs::Questions::ask, limits::specs::Questions::first_of_two))]

ghost use Rattle.std.specs.Prelude.{◌≡◌, true, [], ◌+◌, ◌*◌, ◌<◌, ◌≤◌, min, length, drop, replicate};
ghost use Rattle.limits.specs.Numbers.{prime};
ghost use Rattle.limits.specs.Questions.{first_no, on_yes};
ghost use Rattle.limits.specs.Outcome.{outcome_of};
ghost use Rattle.words.specs.Store.{all_below};
ghost use Rattle.words.specs.Pieces.{words_of, pieces, steps_of};
ghost use Rattle.allocator.specs.Slots.{pairs};
ghost use Rattle.allocator.specs.Values.{fits};
ghost use Rattle.expr.specs.Equation.{term_weights, equation_at, size_at, equations_at};
ghost use Rattle.permute.specs.Parameters.{is_evaluation, leading};
ghost use Rattle.instance.specs.Parts.{held_equations, pairs_at, parts_of};
ghost use Rattle.held.specs.Held.{publics_sound, equations_sound};
ghost use Rattle.validity.specs.Check.{equation_no, equations_no, check_no};
ghost use Rattle.validity.specs.Scratch.{entry, value_at, are_entries, PublicsPut, CellsPut, StepPut, StepsPut, AllPut, Sound, Added, AskedValid};
ghost use Rattle.validity.specs.Valid.{size_asks, is_witness_valid_no, is_witness_valid};

use held::{held_pieces, held_words};
use instance::PermutationInstance;
use limits::{LABEL_END, P, Refused};

// What goes in by value beside the lent words: the instance's record, the steps of the trace, and the rounds
// of the permutation.
#[derive(Clone, Copy)]
struct Counts {
    ins: PermutationInstance,
    steps: u32,
    rounds: u32,
}

// p·p, which no product of two units reaches.
const P_SQUARED: u64 = 4053239668659978241;

// How many steps are evaluated ahead of their cells, at most.
const AHEAD: u32 = 64;

// May a wire of word m carry the unit v: does it carry nothing, or that unit?
fn fits(m: u32, v: u32) -> bool
    ensures { result ≡ fits (entry m) v }
{
    if m == 0 {
        return true;
    }
    m - 1 == v
}

// The public pairs put in order, so that the later value counts. Question 36 of each.
fn put_publics(scratch: &mut [u32], publics: &[u32], count: u32) -> Result<(), Refused>
    requires { (2 * count ≤ length publics.now) × (publics_sound count publics.now ≡ true) × (are_entries scratch.old ≡ true) }
    ensures { PublicsPut scratch.old (pairs_at count publics.now) result scratch.new }
{
    for i in 0..count as usize {
        let x = publics[2 * i] as usize;
        if scratch.len() <= x {
            return Err(Refused(36));
        }
        scratch[x] = publics[2 * i + 1] + 1;
    }
    Ok(())
}

// The cells of one step put in order: 36, then 33, of each.
fn put_cells(scratch: &mut [u32], vars: &[u32], values: &[u32]) -> Result<(), Refused>
    requires { (length vars.now ≡ length values.now) × (all_below prime values.now ≡ true) × (are_entries scratch.old ≡ true) }
    ensures { CellsPut scratch.old (pairs vars.now values.now) result scratch.new }
{
    for (i, var) in vars.iter().enumerate() {
        let x = *var as usize;
        if scratch.len() <= x {
            return Err(Refused(36));
        }
        let m = scratch[x];
        let v = values[i];
        if !fits(m, v) {
            return Err(Refused(33));
        }
        scratch[x] = v + 1;
    }
    Ok(())
}

// One step: 32 where it is not known to be an evaluation, then its cells.
fn put_step(scratch: &mut [u32], known: u32, vars: &[u32], values: &[u32]) -> Result<(), Refused>
    requires { (length vars.now ≡ length values.now) × (all_below prime values.now ≡ true) × (are_entries scratch.old ≡ true) }
    ensures { StepPut known scratch.old (pairs vars.now values.now) result scratch.new }
{
    if known == 0 {
        return Err(Refused(32));
    }
    put_cells(scratch, vars, values)
}

// How many steps at the front of those left are known to be evaluations. Where none is, the next 64 are
// looked at, and question 17 is put once for all of them. Only where a cell is refused was a step evaluated
// for nothing, and no more than 63 were.
fn look_ahead(known: u32, width: u32, rounds: u32, params: &[u32], trace: &[u32], left: u32) -> u32
    ensures { result ≡ on_yes known (leading (is_evaluation width rounds params.now)
        (pieces (width + width) (min left 64) trace.now)) known }
{
    if known != 0 {
        return known;
    }
    permute::evaluations(width, rounds, params, trace, left.min(AHEAD))
}

// All steps, each with the query of the same place: 32, then its cells.
fn put_steps(
    scratch: &mut [u32],
    width: u32,
    rounds: u32,
    params: &[u32],
    queries: &[u32],
    trace: &[u32],
    steps: u32,
) -> Result<(), Refused>
    requires { (words_of width steps ≤ length queries.now) × (words_of width steps ≤ length trace.now)
        × (all_below prime trace.now ≡ true) × (are_entries scratch.old ≡ true) }
    ensures { StepsPut (is_evaluation width rounds params.now) scratch.old
        (pieces (width + width) steps queries.now) (pieces (width + width) steps trace.now) result scratch.new }
{
    let size = width as usize + width as usize;
    let mut at: usize = 0;
    let mut known = 0;
    for done in 0..steps {
        known = look_ahead(known, width, rounds, params, &trace[at..], steps - done);
        let end = at + size;
        put_step(scratch, known, &queries[at..end], &trace[at..end])?;
        known -= 1;
        at = end;
    }
    Ok(())
}

// A sum below p·p with weight times unit added: the sum is kept below p·p, and is reduced only once all
// terms are in.
fn plus(sum: u64, weight: u32, unit: u32) -> u64
    requires { (sum < prime * prime) × (weight < prime) × (unit < prime) }
    ensures { Added sum weight unit result }
{
    let s = sum + weight as u64 * unit as u64;
    if P_SQUARED <= s { s - P_SQUARED } else { s }
}

// One equation, at a place of the words: 34 of each term, whatever its weight, then 35.
fn ask_equation(scratch: &[u32], words: &[u32], at: usize) -> Result<(), Refused>
    requires { (at + size_at (drop at words.now) ≤ length words.now)
        × (all_below prime (term_weights (equation_at (drop at words.now)).terms) ≡ true) × (are_entries scratch.now ≡ true) }
    ensures { result ≡ outcome_of (equation_no (value_at scratch.now) (equation_at (drop at words.now))) }
{
    let mut i = at + 1;
    let mut sum: u64 = 0;
    for _ in 0..words[at] {
        let x = words[i] as usize;
        if scratch.len() <= x {
            return Err(Refused(34));
        }
        let m = scratch[x];
        if m == 0 {
            return Err(Refused(34));
        }
        sum = plus(sum, words[i + 1], m - 1);
        i += 2;
    }
    limits::ask(35, sum % P as u64 == words[i] as u64)
}

// All equations, in order.
fn ask_equations(scratch: &[u32], words: &[u32], count: u32) -> Result<(), Refused>
    requires { (equations_sound count words.now ≡ true) × (are_entries scratch.now ≡ true) }
    ensures { result ≡ outcome_of (equations_no (value_at scratch.now) (equations_at count words.now)) }
{
    let mut at: usize = 0;
    for _ in 0..count {
        ask_equation(scratch, words, at)?;
        at += 2 + 2 * (words[at] as usize);
    }
    Ok(())
}

// The words for what the wires carry filled with 0, and on them the publics and then all steps: 36 of each
// public, then 32, 36 and 33.
fn put_all(
    counts: Counts,
    publics: &[u32],
    queries: &[u32],
    trace: &[u32],
    params: &[u32],
    carried: &mut [u32],
) -> Result<(), Refused>
    requires { Sound counts.ins publics.now queries.now counts.steps trace.now (length carried.old)
        × (counts.steps ≡ counts.ins.queries) }
    ensures { AllPut (is_evaluation counts.ins.width counts.rounds params.now)
        (parts_of counts.ins publics.now queries.now [])
        (steps_of counts.ins.width counts.steps trace.now) result carried.new }
{
    let ins = counts.ins;
    let steps = counts.steps;
    let width = ins.width;
    let count = ins.publics;
    words::fill(carried, 0);
    put_publics(carried, held_words(publics, 2 * count as usize), count)?;
    let cells = held_pieces(queries, width, steps);
    let units = held_pieces(trace, width, steps);
    put_steps(carried, width, counts.rounds, params, cells, units, steps)
}

// 31 to 36 of held parts and a trace that are sound, on the words of scratch for what the wires carry.
fn ask_check(
    counts: Counts,
    publics: &[u32],
    queries: &[u32],
    equations: &[u32],
    trace: &[u32],
    params: &[u32],
    carried: &mut [u32],
) -> Result<(), Refused>
    requires { Sound counts.ins publics.now queries.now counts.steps trace.now (length carried.old)
        × (equations_sound counts.ins.equations (held_equations counts.ins equations.now) ≡ true) }
    ensures { result ≡ outcome_of (check_no (is_evaluation counts.ins.width counts.rounds params.now)
        (parts_of counts.ins publics.now queries.now equations.now)
        (steps_of counts.ins.width counts.steps trace.now)) }
{
    let ins = counts.ins;
    if counts.steps != ins.queries {
        return Err(Refused(31));
    }
    put_all(counts, publics, queries, trace, params, &mut *carried)?;
    let words = held_words(equations, ins.words as usize);
    ask_equations(carried, words, ins.equations)
}

// 1 and 2, by the lengths of what is lent.
fn ask_sizes(
    counts: Counts,
    label: usize,
    publics: usize,
    queries: usize,
    equations: usize,
    trace: usize,
    params: usize,
    scratch: usize,
) -> Result<(), Refused>
    ensures { result ≡ outcome_of (first_no (size_asks counts.ins label publics queries equations counts.steps trace params scratch)) }
{
    let ins = counts.ins;
    limits::ask_width(ins.width)?;
    held::ask_parts(&ins, publics, queries, equations)?;
    limits::ask_store(trace)?;
    limits::ask_store(params)?;
    limits::ask_store(scratch)?;
    limits::ask(2, label < LABEL_END)?;
    words::ask_pieces(ins.width, counts.steps, trace, 2)
}

// The questions before the check: 1, 2, 17, 11, 16.
fn ask_valid(
    counts: Counts,
    label: &[u8],
    publics: &[u32],
    queries: &[u32],
    equations: &[u32],
    trace: &[u32],
    params: &[u32],
    scratch: usize,
) -> Result<(), Refused>
    ensures { AskedValid counts.ins label.now publics.now queries.now
        equations.now counts.steps trace.now counts.rounds params.now scratch result }
{
    let ins = counts.ins;
    ask_sizes(
        counts,
        label.len(),
        publics.len(),
        queries.len(),
        equations.len(),
        trace.len(),
        params.len(),
        scratch,
    )?;
    permute::ask_parameters(ins.width, counts.rounds, params)?;
    held::ask_parts_sound(&ins, label, publics, queries, equations)?;
    words::ask_below(held_pieces(trace, ins.width, counts.steps), P, 11)?;
    limits::ask(16, ins.vars as usize <= scratch)
}

// All questions; scratch is left as the check leaves it.
fn ask_witness_valid(
    counts: Counts,
    label: &[u8],
    publics: &[u32],
    queries: &[u32],
    equations: &[u32],
    trace: &[u32],
    params: &[u32],
    scratch: &mut [u32],
) -> Result<(), Refused>
    ensures { result ≡ outcome_of (is_witness_valid_no counts.ins label.now publics.now queries.now
        equations.now counts.steps trace.now counts.rounds params.now (length scratch.old)) }
{
    let n = scratch.len();
    ask_valid(counts, label, publics, queries, equations, trace, params, n)?;
    let vars = counts.ins.vars as usize;
    let carried = &mut scratch[..vars];
    ask_check(counts, publics, queries, equations, trace, params, carried)
}

// Does the trace satisfy the instance under the permutation (the source's `is_witness_valid`)? Questions 1, 2,
// 17, 11, 16, and then 31, 36, 32, 33, 34, 35; yes is Ok. Scratch is all 0 afterwards.
pub fn is_witness_valid(
    ins: PermutationInstance,
    label: &[u8],
    publics: &[u32],
    queries: &[u32],
    equations: &[u32],
    steps: u32,
    trace: &[u32],
    rounds: u32,
    params: &[u32],
    scratch: &mut [u32],
) -> Result<(), Refused>
    ensures { (result ≡ is_witness_valid ins label.now publics.now queries.now
        equations.now steps trace.now rounds params.now (length scratch.old))
        × (scratch.new ≡ replicate (length scratch.old) 0) }
{
    let counts = Counts { ins, steps, rounds };
    let lent = &mut *scratch;
    let valid = ask_witness_valid(
        counts, label, publics, queries, equations, trace, params, lent,
    );
    words::fill(scratch, 0);
    valid
}
