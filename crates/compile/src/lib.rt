// The gate (the source's `compile`, of permutation.rs): from a relation and its stores to an instance.
//
// What is asked before the publics are made is 1, 2 and 11; then 10, whether their store holds them and whether the use
// store has a word per slot, and of the instance 16 and 12 to 15, where 13 and 15 are by the use counts (a read walks its
// queries for them). Every open function answers on every input.

#![tactic(auto, unfolding(limits::specs::Questions::ask, limits::specs::Questions::first_of_two, crate::specs::Gate::prepared_no))]

ghost use Rattle.std.specs.Prelude.{◌≡◌, ◌≤◌, length};
ghost use Rattle.limits.specs.Numbers.{max_count};
ghost use Rattle.limits.specs.Outcome.{as_is, outcome_of};
ghost use Rattle.limits.specs.Questions.{first_no};
ghost use Rattle.compile.specs.Records.{gated};
ghost use Rattle.compile.specs.Gate.{gate_lent, PutsPublics, stores_asks, sound_asks, prepared_no, asked_made, instance_of, Compiles};

use instance::PermutationInstance;
use limits::{LABEL_END, MAX_COUNT, Refused, UNASSIGNED};
use permutation::PermutationRelation;

// The assigned wires in index order, with their units, at the front of the store where it holds them; and how
// many they are. A store that is too short has only the first of them.
fn put_publics(out: &mut [u32], slots: &[u32]) -> u32
    requires { length slots.now ≤ max_count }
    ensures { PutsPublics slots.now out.old result out.new }
{
    let mut n: u32 = 0;
    let mut to: usize = 0;
    for (i, v) in slots.iter().enumerate() {
        if *v != UNASSIGNED {
            if to + 1 < out.len() {
                out[to] = i as u32;
                out[to + 1] = *v;
                to += 2;
            }
            n += 1;
        }
    }
    n
}

// 2 of the gate's other stores, by their lengths.
pub fn ask_stores(
    rel: &PermutationRelation,
    label: usize,
    queries: usize,
    equations: usize,
    publics: usize,
    scratch: usize,
) -> Result<(), Refused>
    ensures { result ≡ outcome_of (first_no (stores_asks rel.now label queries equations publics scratch)) }
{
    words::ask_held(rel.width, rel.queries, queries)?;
    limits::ask_store(equations)?;
    limits::ask(2, rel.words as usize <= equations)?;
    limits::ask(2, 2 * rel.equations as usize <= equations)?;
    limits::ask_store(publics)?;
    limits::ask_store(scratch)?;
    limits::ask(2, label < LABEL_END)
}

// 11 of the gate.
fn ask_sound(
    rel: &PermutationRelation,
    label: &[u8],
    slots: &[u32],
    queries: &[u32],
    equations: &[u32],
) -> Result<(), Refused>
    ensures { result ≡ outcome_of (first_no (sound_asks rel.now label.now slots.now queries.now equations.now)) }
{
    let terms = held::held_words(equations, rel.words as usize);
    let cells = held::held_pieces(queries, rel.width, rel.queries);
    held::ask_equations_sound(terms, rel.equations)?;
    words::ask_below(cells, MAX_COUNT, 11)?;
    held::ask_slots_sound(held::held_words(slots, rel.vars as usize))?;
    held::ask_utf8(label)
}

// What is asked before the publics are made: 1, 2, 11.
fn ask_prepared(
    rel: &PermutationRelation,
    label: &[u8],
    slots: &[u32],
    queries: &[u32],
    equations: &[u32],
    uses: &[u32],
    publics: usize,
    scratch: usize,
) -> Result<(), Refused>
    ensures { result ≡ outcome_of (prepared_no (gate_lent rel.now label.now slots.now queries.now equations.now
        uses.now publics scratch)) }
{
    permutation::ask_relation(rel, slots.len())?;
    ask_stores(
        rel,
        label.len(),
        queries.len(),
        equations.len(),
        publics,
        scratch,
    )?;
    limits::ask_store(uses.len())?;
    ask_sound(rel, label, slots, queries, equations)
}

// 10, 16 and 13 to 15, with so many publics. 12 never says no of a relation's own.
fn ask_made(
    rel: &PermutationRelation,
    slots: &[u32],
    equations: &[u32],
    uses: &[u32],
    count: u32,
    publics: usize,
    scratch: usize,
) -> Result<(), Refused>
    ensures { result ≡ outcome_of (asked_made rel.now slots.now equations.now uses.now count publics scratch) }
{
    limits::ask(10, 2 * count as usize <= publics)?;
    limits::ask(10, uses.len() == slots.len())?;
    limits::ask(16, rel.vars as usize <= scratch)?;
    use_gate::ask_used(
        rel.vars,
        held::held_words(slots, rel.vars as usize),
        uses,
        rel.stray,
        held::held_words(equations, rel.words as usize),
        rel.equations,
    )
}

// The instance of a relation with so many publics.
fn instance_of(rel: &PermutationRelation, count: u32) -> PermutationInstance
    ensures { result ≡ instance_of rel.now count }
{
    PermutationInstance {
        width: rel.width,
        vars: rel.vars,
        queries: rel.queries,
        equations: rel.equations,
        words: rel.words,
        publics: count,
    }
}

// The gate (the source's `compile`): 1, 2, 11, 10, 16, 12 to 15. Publics become the assigned wires in index
// order, then 0 to the end; all 0 where it refuses. Scratch is all 0 afterwards.
pub fn compile(
    rel: &PermutationRelation,
    label: &[u8],
    slots: &[u32],
    queries: &[u32],
    equations: &[u32],
    uses: &[u32],
    publics: &mut [u32],
    scratch: &mut [u32],
) -> Result<PermutationInstance, Refused>
    ensures { Compiles as_is (gate_lent rel.now label.now slots.now queries.now equations.now
        uses.now (length publics.old) (length scratch.old)) (gated result) publics.new scratch.new }
{
    words::fill(publics, 0);
    words::fill(scratch, 0);
    let (room, marks) = (publics.len(), scratch.len());
    ask_prepared(rel, label, slots, queries, equations, uses, room, marks)?;
    let count = put_publics(publics, held::held_words(slots, rel.vars as usize));
    if let Err(refused) = ask_made(rel, slots, equations, uses, count, room, marks) {
        words::fill(publics, 0);
        return Err(refused);
    }
    Ok(instance_of(rel, count))
}
