// The calls that record queries and equations in relation `index` of an allocator (document 02's R-2).
//
// Each call puts the front of its questions, up to the last that sharing puts in, and then does what the same call does
// to a relation alone that has the shared wire count for its own. Every open function answers on every input.

#![tactic(auto, unfolding(limits::specs::Questions::ask, limits::specs::Questions::first_of_two, crate::specs::Answers::add_permutation_on_no, crate::specs::Answers::mint_front_no, crate::specs::Answers::add_equation_on_no))]

ghost use Rattle.std.specs.Prelude.{◌+◌, ◌≡◌, ◌++◌, length};
ghost use Rattle.limits.specs.Outcome.{as_is, answer_of, outcome_of};
ghost use Rattle.limits.specs.Questions.{first_no};
ghost use Rattle.limits.specs.Asks.{store_asks};
ghost use Rattle.permutation.specs.Relation.{relation_asks_with, queries_asks};
ghost use Rattle.expr.specs.Weighted.{terms_of};
ghost use Rattle.sharing.specs.Shares.{on_allocator, shares};
ghost use Rattle.sharing.specs.Records.{first_on, outcome_on};
ghost use Rattle.sharing.specs.Answers.{Does, DoesBoth, DoesAll};
ghost use Rattle.shared_recording.specs.Answers.{add_permutation_on_no, mint_front_no, add_equation_on_no, add_permutation_on, add_permutation_on_queries, add_permutation_on_uses, allocate_permutation_on, allocate_permutation_on_slots, allocate_permutation_on_queries, allocate_permutation_on_uses, add_equation_on, add_equation_on_equations};

use baby_bear::BabyBearUnit;
use expr::Weighted;
use limits::{MAX_COUNT, Refused};
use sharing::{SharedRelation, VarAllocator};

// Questions 1 and 2 of the relation and the slots, its queries and its use store: the same whatever its number is.
pub fn ask_queries_on(
    allocator: &VarAllocator,
    rel: &SharedRelation,
    slots: usize,
    room: usize,
    uses: usize,
) -> Result<(), Refused>
    ensures { result ≡ outcome_of (first_no (relation_asks_with (shares allocator.now 0 rel.now) (on_allocator allocator.now rel.now) slots
        ++ (queries_asks (on_allocator allocator.now rel.now) room ++ store_asks uses))) }
{
    limits::ask_width(rel.width)?;
    sharing::ask_slots_on(allocator, slots)?;
    words::ask_held(rel.width, rel.queries, room)?;
    limits::ask_store(uses)
}

// The questions of a record call up to 42.
fn ask_add_permutation_on(
    allocator: &VarAllocator,
    index: u32,
    rel: &SharedRelation,
    slots: usize,
    room: usize,
    uses: usize,
    input: &[u32],
    output: &[u32],
) -> Result<(), Refused>
    ensures { result ≡ outcome_of (add_permutation_on_no allocator.now index rel.now slots room uses input.now output.now) }
{
    ask_queries_on(allocator, rel, slots, room, uses)?;
    limits::ask_store(input.len())?;
    limits::ask_store(output.len())?;
    sharing::ask_opened(allocator, index)
}

// Record a query of the relation from input to output wires, allocated or not. Questions 1, 2, 42, 9, 3, 11, 10.
pub fn add_permutation_on(
    allocator: &VarAllocator,
    index: u32,
    rel: &mut SharedRelation,
    slots: &[u32],
    queries: &mut [u32],
    uses: &mut [u32],
    input: &[u32],
    output: &[u32],
) -> Result<(), Refused>
    ensures { DoesBoth as_is
        (add_permutation_on allocator.now index rel.old (length slots.now) queries.old uses.old input.now output.now)
        (add_permutation_on_queries allocator.now index rel.old (length slots.now) queries.old uses.old input.now output.now)
        (add_permutation_on_uses allocator.now index rel.old (length slots.now) queries.old uses.old input.now output.now)
        (outcome_on result rel.new) queries.new uses.new }
{
    ask_add_permutation_on(
        allocator,
        index,
        rel,
        slots.len(),
        queries.len(),
        uses.len(),
        input,
        output,
    )?;
    let mut alone = sharing::on_allocator(allocator, rel);
    recording::add_permutation(&mut alone, slots, queries, uses, input, output)?;
    sharing::record_on(rel, &alone);
    Ok(())
}

// The questions of a mint before it is handed on, and what the relation then has of its quota. Where the quota holds the
// wires 9, 3 and 5 are left to the mint itself.
fn ask_mint_on(
    allocator: &VarAllocator,
    index: u32,
    rel: &SharedRelation,
    slots: usize,
    room: usize,
    uses: usize,
    input: &[u32],
) -> Result<u32, Refused>
    ensures { result ≡ answer_of (mint_front_no allocator.now index rel.now slots room uses input.now) (rel.now.obtained + rel.now.width) }
{
    ask_queries_on(allocator, rel, slots, room, uses)?;
    limits::ask_store(input.len())?;
    sharing::ask_opened(allocator, index)?;
    let more = rel.obtained as usize + rel.width as usize;
    if more <= rel.quota as usize {
        return Ok(rel.obtained + rel.width);
    }
    words::ask_half(rel.width, 3, MAX_COUNT, input)?;
    sharing::ask_quota(allocator, rel, rel.width)
}

// Record a query of the relation from input wires to as many new ones, or do neither. Questions 1, 2, 42, 9, 3, 5, 43,
// 6, 11, 10.
pub fn allocate_permutation_on(
    allocator: &mut VarAllocator,
    index: u32,
    rel: &mut SharedRelation,
    slots: &mut [u32],
    queries: &mut [u32],
    uses: &mut [u32],
    input: &[u32],
) -> Result<u32, Refused>
    ensures { DoesAll as_is (allocate_permutation_on allocator.old index rel.old slots.old queries.old uses.old input.now)
        (allocate_permutation_on_slots allocator.old index rel.old slots.old queries.old uses.old input.now)
        (allocate_permutation_on_queries allocator.old index rel.old slots.old queries.old uses.old input.now)
        (allocate_permutation_on_uses allocator.old index rel.old slots.old queries.old uses.old input.now)
        (first_on result allocator.new rel.new) slots.new queries.new uses.new }
{
    let obtained = ask_mint_on(
        allocator,
        index,
        rel,
        slots.len(),
        queries.len(),
        uses.len(),
        input,
    )?;
    let mut alone = sharing::on_allocator(allocator, rel);
    let first = recording::allocate_permutation(&mut alone, slots, queries, uses, input)?;
    sharing::allocate_on(allocator, rel, &alone, obtained);
    Ok(first)
}

// The questions of a call on the relation's equations up to 42.
pub fn ask_equations_on(
    allocator: &VarAllocator,
    index: u32,
    rel: &SharedRelation,
    len: usize,
) -> Result<(), Refused>
    ensures { result ≡ outcome_of (add_equation_on_no allocator.now index rel.now len) }
{
    limits::ask_width(rel.width)?;
    limits::ask_store(len)?;
    limits::ask(2, rel.words as usize <= len)?;
    limits::ask(2, 2 * rel.equations as usize <= len)?;
    sharing::ask_count_on(allocator)?;
    sharing::ask_opened(allocator, index)
}

// Record an equation of the relation. Questions 1, 2, 42, 3, 4, 10.
pub fn add_equation_on(
    allocator: &VarAllocator,
    index: u32,
    rel: &mut SharedRelation,
    equations: &mut [u32],
    terms: &[Weighted],
    image: BabyBearUnit,
) -> Result<(), Refused>
    ensures { Does as_is (add_equation_on allocator.now index rel.old equations.old (terms_of terms.now) image.0)
        (add_equation_on_equations allocator.now index rel.old equations.old (terms_of terms.now) image.0)
        (outcome_on result rel.new) equations.new }
{
    ask_equations_on(allocator, index, rel, equations.len())?;
    let mut alone = sharing::on_allocator(allocator, rel);
    recording::add_equation(&mut alone, equations, terms, image)?;
    sharing::record_on(rel, &alone);
    Ok(())
}
