// The check, for C.

ghost use Rattle.std.specs.Prelude.{◌≡◌, length, replicate};
ghost use Rattle.validity.specs.Valid.{is_witness_valid};
ghost use Rattle.limits.specs.Outcome.{outcome_number};

use instance::PermutationInstance;

// Is the trace valid for the instance, by the permutation of these parameters? 0 is yes.
#[unsafe(no_mangle)]
pub extern "C" fn sfr_is_witness_valid(
    ins: PermutationInstance,
    label: &[u8],
    publics: &[u32],
    queries: &[u32],
    equations: &[u32],
    steps: u32,
    trace: &[u32],
    rounds: u32,
    params: &[u32],
    scratch: &mut [u32],
) -> u32
    ensures { (result ≡ outcome_number (is_witness_valid ins label.now publics.now queries.now
        equations.now steps trace.now rounds params.now (length scratch.old)))
        × (scratch.new ≡ replicate (length scratch.old) 0) }
{
    limits::number(&validity::is_witness_valid(
        ins, label, publics, queries, equations, steps, trace, rounds, params, scratch,
    ))
}
