// 13 and 15 of a relation's gate by use counts and stray count (document 02, R-6): 13, then 14 and 15, with no
// walk over the queries and no scratch.
//
// The terms are asked by `validated`'s walk. Words that a store lacks count as 0 and slots that are lacking as
// unassigned, as in the definitions.

#![tactic(auto, unfolding(limits::specs::Questions::ask, limits::specs::Questions::first_of_two, limits::specs::Below::all_below, crate::specs::UseGate::used_no))]

ghost use Rattle.std.specs.Prelude.{◌≡◌};
ghost use Rattle.limits.specs.Outcome.{outcome_of};
ghost use Rattle.expr.specs.Equation.{equations_at};
ghost use Rattle.use_gate.specs.UseGate.{uses_below, used_no};

use limits::Refused;

// 13: is there no stray cell, and no count above 0 from the wire count on?
fn uses_below(vars: u32, uses: &[u32], stray: u32) -> bool
    ensures { result ≡ uses_below vars uses.now stray }
{
    if stray != 0 {
        return false;
    }
    let from = vars as usize;
    if uses.len() <= from {
        return true;
    }
    words::all_below(&uses[from..], 1)
}

// 13, then 14 and 15 of n equations in their words. `slots` are those of the allocated wires.
pub fn ask_used(
    vars: u32,
    slots: &[u32],
    uses: &[u32],
    stray: u32,
    held: &[u32],
    n: u32,
) -> Result<(), Refused>
    ensures { result ≡ outcome_of (used_no vars slots.now uses.now stray (equations_at n held.now)) }
{
    limits::ask(13, uses_below(vars, uses, stray))?;
    validated::ask_equations(vars, slots, uses, held, n)
}
