// The calls that record queries and equations in a relation (the source's permutation.rs, recording, with expr.rs
// behind it).
//
// Record, slots, queries, equations and use counts are lent. A call changes nothing
// where a question says no: the use counts, which 11 is asked of, are the last to be asked and the first to be written.

#![tactic(auto, unfolding(limits::specs::Questions::ask, limits::specs::Questions::first_of_two, crate::specs::Numbers::add_equation_no))]

ghost use Rattle.std.specs.Prelude.{◌≤◌, ◌≡◌, ◌++◌};
ghost use Rattle.limits.specs.Outcome.{as_is, outcome_of};
ghost use Rattle.limits.specs.Numbers.{max_count};
ghost use Rattle.limits.specs.Questions.{first_no};
ghost use Rattle.limits.specs.Asks.{store_asks};
ghost use Rattle.allocator.specs.Slots.{room_asks};
ghost use Rattle.expr.specs.Weighted.{terms_of};
ghost use Rattle.permutation.specs.Sharing.{alone};
ghost use Rattle.permutation.specs.Records.{recorded, allocated};
ghost use Rattle.permutation.specs.Relation.{relation_asks, queries_asks};
ghost use Rattle.recording.specs.Relation.{add_permutation_front, record_asks, allocate_permutation_front, up_from, add_equation_sizes};
ghost use Rattle.recording.specs.Numbers.{add_equation_no};
ghost use Rattle.recording.specs.Effects.{AddsPermutation, AllocatesPermutation, AddsEquation};

use baby_bear::BabyBearUnit;
use expr::Weighted;
use limits::{MAX_COUNT, P, Refused};
use permutation::PermutationRelation;

// Questions 1 and 2 of a relation, its slots, its queries and its use store.
pub fn ask_queries(
    rel: &PermutationRelation,
    slots: usize,
    room: usize,
    uses: usize,
) -> Result<(), Refused>
    ensures { result ≡ outcome_of (first_no (relation_asks rel.now slots ++ (queries_asks rel.now room ++ store_asks uses))) }
{
    permutation::ask_relation(rel, slots)?;
    words::ask_held(rel.width, rel.queries, room)?;
    limits::ask_store(uses)
}

// The questions of a record call before its counts: 1, 2, 9, 3.
fn ask_add_permutation(
    rel: &PermutationRelation,
    slots: usize,
    room: usize,
    uses: usize,
    input: &[u32],
    output: &[u32],
) -> Result<(), Refused>
    ensures { result ≡ outcome_of (first_no (add_permutation_front alone rel.now slots room uses input.now output.now
        ++ record_asks rel.now input.now output.now)) }
{
    ask_queries(rel, slots, room, uses)?;
    limits::ask_store(input.len())?;
    limits::ask_store(output.len())?;
    words::ask_halves(rel.width, 3, MAX_COUNT, input, output)
}

// Record a query from input to output wires, allocated or not (the source's `add_permutation`). Questions 1,
// 2, 9, 3, 11, 10.
pub fn add_permutation(
    rel: &mut PermutationRelation,
    slots: &[u32],
    queries: &mut [u32],
    uses: &mut [u32],
    input: &[u32],
    output: &[u32],
) -> Result<(), Refused>
    ensures { AddsPermutation as_is rel.old slots.now queries.old uses.old input.now output.now
        (recorded result rel.new) queries.new uses.new }
{
    ask_add_permutation(rel, slots.len(), queries.len(), uses.len(), input, output)?;
    let room = words::ask_one_more(rel.width, rel.queries, queries.len());
    let stray = uses::count_cells(false, slots.len(), uses, rel.stray, input, output, room)?;
    let width = rel.width as usize;
    let at = rel.queries as usize * (width + width);
    words::put(queries, at, input);
    words::put(queries, at + width, output);
    rel.queries += 1;
    rel.stray = stray;
    Ok(())
}

// The questions of a mint before its counts: 1, 2, 9, 3, 5, 6.
fn ask_allocate_permutation(
    rel: &PermutationRelation,
    slots: usize,
    room: usize,
    uses: usize,
    input: &[u32],
) -> Result<(), Refused>
    ensures { result ≡ outcome_of (first_no (allocate_permutation_front alone rel.now slots room uses input.now
        ++ room_asks rel.now.vars slots rel.now.width)) }
{
    ask_queries(rel, slots, room, uses)?;
    limits::ask_store(input.len())?;
    words::ask_half(rel.width, 3, MAX_COUNT, input)?;
    allocator::ask_grow(rel.vars, slots, rel.width)
}

// As many wires from `first` on as the greatest width.
fn vars_from(first: u32) -> [u32; 24]
    requires { first ≤ max_count }
    ensures { result ≡ up_from first 24 }
{
    std::array::from_fn(|i| first + i as u32)
}

// Record a query from input wires to as many new ones (the source's `allocate_permutation`), or do neither; the answer is
// the first of them. Questions 1, 2, 9, 3, 5, 6, 11, 10.
pub fn allocate_permutation(
    rel: &mut PermutationRelation,
    slots: &mut [u32],
    queries: &mut [u32],
    uses: &mut [u32],
    input: &[u32],
) -> Result<u32, Refused>
    ensures { AllocatesPermutation as_is rel.old slots.old queries.old uses.old input.now
        (allocated result rel.new) slots.new queries.new uses.new }
{
    ask_allocate_permutation(rel, slots.len(), queries.len(), uses.len(), input)?;
    let first = rel.vars;
    let held = rel.queries;
    let width = rel.width as usize;
    let vars = vars_from(first);
    let output = &vars[..width];
    let room = words::ask_one_more(rel.width, held, queries.len());
    let stray = uses::count_cells(false, slots.len(), uses, rel.stray, input, output, room)?;
    let at = held as usize * (width + width);
    allocator::grow_slots(slots, first, rel.width);
    words::put(queries, at, input);
    words::put(queries, at + width, output);
    rel.vars = first + rel.width;
    rel.queries = held + 1;
    rel.stray = stray;
    Ok(first)
}

// Questions 1 and 2 of a relation and its equations.
pub fn ask_equations(rel: &PermutationRelation, len: usize) -> Result<(), Refused>
    ensures { result ≡ outcome_of (first_no (add_equation_sizes rel.now len)) }
{
    limits::ask_width(rel.width)?;
    limits::ask_store(len)?;
    limits::ask(2, rel.words as usize <= len)?;
    limits::ask(2, 2 * rel.equations as usize <= len)?;
    limits::ask_count(rel.vars)
}

// The questions of an equation call: 1, 2, 3, 4, 10.
fn ask_add_equation(
    rel: &PermutationRelation,
    len: usize,
    terms: &[Weighted],
    image: u32,
) -> Result<(), Refused>
    ensures { result ≡ outcome_of (add_equation_no rel.now len (terms_of terms.now) image) }
{
    ask_equations(rel, len)?;
    expr::ask_terms(terms)?;
    limits::ask(4, image < P)?;
    let used = rel.words as usize;
    limits::ask(10, expr::equation_fits(used, terms.len(), len))
}

// Record an equation (the source's `add_equation`). Questions 1, 2, 3, 4, 10.
pub fn add_equation(
    rel: &mut PermutationRelation,
    equations: &mut [u32],
    terms: &[Weighted],
    image: BabyBearUnit,
) -> Result<(), Refused>
    ensures { AddsEquation as_is rel.old equations.old (terms_of terms.now) image.0 (recorded result rel.new) equations.new }
{
    ask_add_equation(rel, equations.len(), terms, image.0)?;
    expr::put_equation(equations, rel.words as usize, terms, image.0);
    rel.equations += 1;
    rel.words += 2 + 2 * terms.len() as u32;
    Ok(())
}
