// Rounds undone: the inverse of the matrix, 7th roots, and constants taken away.

ghost use Rattle.std.specs.Prelude.{◌≡◌, true, ◌*◌, ◌<◌, length};
ghost use Rattle.limits.specs.Numbers.{prime};
ghost use Rattle.baby_bear.specs.Field.{are_units, dot_units};
ghost use Rattle.permute.specs.Permute.{round_of, times_matrix};
ghost use Rattle.permute.specs.Parameters.{rounds_of, rows_of};
ghost use Rattle.permute.specs.Walks.{MixAsked, Ready};
ghost use Rattle.inverse.specs.Inverse.{sub_unit, sub_constants, lower, undo_round, undo_rounds};
ghost use Rattle.inverse.specs.Walks.{RowAsked, RowsAsked};

use crate::roots::lower;
use baby_bear::{HALF, HALF_LEAVES};
use limits::{P, STATE_WORDS};

// A row times the state, with one reduction.
fn times_row(row: &[u32], x: &[u32]) -> u32
    requires { RowAsked row.now x.now }
    ensures { result ≡ dot_units row.now x.now }
{
    let mut low = 0u64;
    let mut high = 0u64;
    for (i, y) in x.iter().enumerate() {
        let u = row[i] as u64 * *y as u64;
        low += u % HALF;
        high += u / HALF;
    }
    ((high * HALF_LEAVES + low) % P as u64) as u32
}

// The matrix times the state x, put into out.
fn times_rows(matrix: &[u32], x: &[u32], out: &mut [u32])
    requires { RowsAsked matrix.now x.now out.old }
    ensures { out.new ≡ times_matrix (rows_of (length x.now) (length x.now) matrix.now) x.now }
{
    let w = x.len();
    for (i, y) in out.iter_mut().enumerate() {
        let at = i * w;
        *y = times_row(&matrix[at..at + w], x);
    }
}

// The difference of two units: one addition is enough.
fn sub_units(a: u32, b: u32) -> u32
    requires { (a < prime) × (b < prime) }
    ensures { result ≡ sub_unit a b }
{
    if a < b { P - b + a } else { a - b }
}

// Constant i taken away from element i, put into out.
fn sub_constants(constants: &[u32], x: &[u32], out: &mut [u32])
    requires { MixAsked constants.now x.now out.old }
    ensures { out.new ≡ sub_constants constants.now x.now }
{
    for (i, y) in out.iter_mut().enumerate() {
        *y = sub_units(x[i], constants[i]);
    }
}

// One round undone, in place, by the inverse of the matrix; `mixed` is for what stands between its halves.
fn undo_round(kind: u32, constants: &[u32], inverse: &[u32], state: &mut [u32], mixed: &mut [u32])
    requires { MixAsked constants.now state.old mixed.old × RowsAsked inverse.now state.old mixed.old × (0 < length state.old) }
    ensures { state.new ≡ undo_round (rows_of (length state.old) (length state.old) inverse.now)
        (round_of kind constants.now) state.old }
{
    times_rows(inverse, state, &mut *mixed);
    lower(kind, &mut *mixed);
    sub_constants(constants, mixed, state);
}

// All rounds undone, in place, from the last to the first.
pub(crate) fn undo_rounds(rounds: usize, params: &[u32], inverse: &[u32], state: &mut [u32])
    requires { Ready rounds params.now state.old × (are_units state.old ≡ true) × (are_units inverse.now ≡ true)
        × (length inverse.now ≡ length state.old * length state.old) }
    ensures { state.new ≡ undo_rounds (rows_of (length state.old) (length state.old) inverse.now)
        (rounds_of (length state.old) rounds params.now) state.old }
{
    let w = state.len();
    let mut mixed = [0u32; STATE_WORDS];
    for round in params[..rounds * (w + 1)].rchunks_exact(w + 1) {
        undo_round(
            round[0],
            &round[1..],
            inverse,
            &mut *state,
            &mut mixed[0..w],
        );
    }
}
