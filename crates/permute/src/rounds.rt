// The rounds of a permutation: constants, 7th powers, and the matrix.
//
// A round goes from the state to a second array and back, so that nothing is copied.

ghost use Rattle.std.specs.Prelude.{◌≡◌, true, map, ◌+◌, ◌*◌, ◌<◌, length, drop};
ghost use Rattle.limits.specs.Numbers.{prime, max_width};
ghost use Rattle.baby_bear.specs.Field.{are_units, add_unit, seventh};
ghost use Rattle.permute.specs.Permute.{add_constants, raise, round_of, run_round, permute};
ghost use Rattle.permute.specs.Parameters.{parameters_of};
ghost use Rattle.permute.specs.Columns.{turned_rows};
ghost use Rattle.permute.specs.Walks.{Turned, ProductAsked, MixAsked, Ready};

use crate::matrix::{times_matrix, turn_matrix};
use baby_bear::BabyBearUnit;
use limits::{MATRIX_WORDS, P, STATE_WORDS};

// The sum of two units: one subtraction is enough.
fn add_units(a: u32, b: u32) -> u32
    requires { (a < prime) × (b < prime) }
    ensures { result ≡ add_unit a b }
{
    let s = a + b;
    if P <= s { s - P } else { s }
}

// Constant i added to element i, put into out.
fn add_constants(constants: &[u32], x: &[u32], out: &mut [u32])
    requires { MixAsked constants.now x.now out.old }
    ensures { out.new ≡ add_constants constants.now x.now }
{
    for (i, sum) in out.iter_mut().enumerate() {
        *sum = add_units(x[i], constants[i]);
    }
}

// Every element that is lent raised to the 7th power.
fn raise_all(x: &mut [u32])
    ensures { x.new ≡ map seventh x.old }
{
    for a in x.iter_mut() {
        *a = baby_bear::seventh(BabyBearUnit(*a)).0;
    }
}

// What a round does before the matrix.
fn mix(kind: u32, constants: &[u32], x: &[u32], out: &mut [u32])
    requires { MixAsked constants.now x.now out.old × (0 < length x.now) }
    ensures { out.new ≡ raise kind (add_constants constants.now x.now) }
{
    add_constants(constants, x, &mut *out);
    if kind == 0 {
        raise_all(out);
    } else {
        raise_all(&mut out[0..1]);
    }
}

// One round, in place, with the matrix by columns; `mixed` is for what stands between its halves.
fn run_round(kind: u32, constants: &[u32], columns: &[u64], state: &mut [u32], mixed: &mut [u32])
    requires { MixAsked constants.now state.old mixed.old × ProductAsked columns.now state.old × (0 < length state.old) }
    ensures { state.new ≡ run_round (turned_rows (length state.old) (length state.old) 0 columns.now)
        (round_of kind constants.now) state.old }
{
    mix(kind, constants, state, &mut *mixed);
    times_matrix(columns, mixed, state);
}

// All rounds, in place, with the matrix by columns.
fn run_turned(rounds: usize, params: &[u32], columns: &[u64], state: &mut [u32])
    requires { Ready rounds params.now state.old × (are_units state.old ≡ true) × (length columns.now ≡ max_width * max_width)
        × Turned (drop (rounds * (length state.old + 1)) params.now) (length state.old) columns.now }
    ensures { state.new ≡ permute (parameters_of (length state.old) rounds params.now) state.old }
{
    let w = state.len();
    let mut mixed = [0u32; STATE_WORDS];
    for round in params.chunks_exact(w + 1).take(rounds) {
        run_round(
            round[0],
            &round[1..],
            columns,
            &mut *state,
            &mut mixed[0..w],
        );
    }
}

// All rounds, in place, with the matrix turned once for them; where there are none it is not looked at.
pub(crate) fn run_rounds(rounds: usize, params: &[u32], state: &mut [u32])
    requires { Ready rounds params.now state.old × (are_units state.old ≡ true) }
    ensures { state.new ≡ permute (parameters_of (length state.old) rounds params.now) state.old }
{
    if rounds == 0 {
        return;
    }
    let w = state.len();
    let start = rounds * (w + 1);
    let mut columns = [0u64; MATRIX_WORDS];
    turn_matrix(&params[start..], w, &mut columns);
    run_turned(rounds, params, &columns, state);
}
