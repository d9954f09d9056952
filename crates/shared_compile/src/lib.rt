// The gate of relation `index` of an allocator (document 02's R-2).
//
// It puts 1, 2 and 42, and then is the gate of a relation alone that has the shared wire count for its own: it judges on
// everybody's sets and on the relation's own queries, equations and use counts. It answers on every input.

#![tactic(auto, unfolding(limits::specs::Questions::ask, limits::specs::Questions::first_of_two, crate::specs::Gate::compile_on_no, crate::specs::Gate::compile_on, crate::specs::Gate::compile_publics_on))]

ghost use Rattle.std.specs.Prelude.{◌≡◌, length};
ghost use Rattle.limits.specs.Outcome.{as_is, outcome_of};
ghost use Rattle.compile.specs.Records.{gated};
ghost use Rattle.compile.specs.Gate.{gate_lent};
ghost use Rattle.sharing.specs.Shares.{on_allocator, shares};
ghost use Rattle.shared_compile.specs.Gate.{compile_on_no, CompilesOn};

use instance::PermutationInstance;
use limits::Refused;
use sharing::{SharedRelation, VarAllocator};

// The questions of a gate up to 42.
fn ask_compile_on(
    allocator: &VarAllocator,
    index: u32,
    rel: &SharedRelation,
    label: &[u8],
    slots: &[u32],
    queries: &[u32],
    equations: &[u32],
    uses: &[u32],
    publics: usize,
    scratch: usize,
) -> Result<(), Refused>
    ensures { result ≡ outcome_of (compile_on_no (shares allocator.now index rel.now)
        (gate_lent (on_allocator allocator.now rel.now) label.now slots.now queries.now equations.now uses.now publics scratch)) }
{
    limits::ask_width(rel.width)?;
    sharing::ask_slots_on(allocator, slots.len())?;
    compile::ask_stores(
        &sharing::on_allocator(allocator, rel),
        label.len(),
        queries.len(),
        equations.len(),
        publics,
        scratch,
    )?;
    limits::ask_store(uses.len())?;
    sharing::ask_opened(allocator, index)
}

// The gate: 1, 2, 42, 11, 10, 16, 12 to 15. Publics become the wires that any relation set, in index order, then 0 to
// the end; all 0 where it refuses. Scratch is all 0 afterwards.
pub fn compile_on(
    allocator: &VarAllocator,
    index: u32,
    rel: &SharedRelation,
    label: &[u8],
    slots: &[u32],
    queries: &[u32],
    equations: &[u32],
    uses: &[u32],
    publics: &mut [u32],
    scratch: &mut [u32],
) -> Result<PermutationInstance, Refused>
    ensures { CompilesOn as_is (shares allocator.now index rel.now)
        (gate_lent (on_allocator allocator.now rel.now) label.now slots.now queries.now equations.now
        uses.now (length publics.old) (length scratch.old)) (gated result) publics.new scratch.new }
{
    if let Err(refused) = ask_compile_on(
        allocator,
        index,
        rel,
        label,
        slots,
        queries,
        equations,
        uses,
        publics.len(),
        scratch.len(),
    ) {
        words::fill(publics, 0);
        words::fill(scratch, 0);
        return Err(refused);
    }
    compile::compile(
        &sharing::on_allocator(allocator, rel),
        label,
        slots,
        queries,
        equations,
        uses,
        publics,
        scratch,
    )
}
