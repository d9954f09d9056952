// Unknown by unknown: a row found that can be solved, put in its place, solved, and put into the others.

ghost use Rattle.std.specs.Prelude.{◌≡◌, [], ◌-◌, ◌*◌, ◌≤◌, ◌<◌, length};
ghost use Rattle.limits.specs.Numbers.{max_width};
ghost use Rattle.permute.specs.Parameters.{rows_of};
ghost use Rattle.matrix_inverse.specs.Inverse.{swap, exchange, pivot, eliminate};
ghost use Rattle.matrix_inverse.specs.Words.{Eliminated};

use crate::rows::{solve_row, substitute_all, swap_columns};
use limits::{P, STATE_WORDS};

// The first row from c on that can be solved for unknown c, or w.
fn pivot(w: usize, c: usize, matrix: &[u32]) -> usize
    requires { (c < w) × (w ≤ max_width) × (length matrix.now ≡ w * w) }
    ensures { result ≡ pivot c (rows_of w w matrix.now) }
{
    for i in c..w {
        if matrix[i * w + c] % P != 0 {
            return i;
        }
    }
    w
}

// Rows i and j exchanged.
fn swap_rows(w: usize, i: usize, j: usize, matrix: &mut [u32])
    requires { (i < w) × (j < w) × (w ≤ max_width) × (length matrix.old ≡ w * w) }
    ensures { rows_of w w matrix.new ≡ swap [] i j (rows_of w w matrix.old) }
{
    let from = i * w;
    let to = j * w;
    let mut first = [0u32; STATE_WORDS];
    first[0..w].copy_from_slice(&matrix[from..from + w]);
    matrix.copy_within(to..to + w, from);
    matrix[to..to + w].copy_from_slice(&first[0..w]);
}

// Row c solved for unknown c, and the solution put into the other rows.
fn exchange(w: usize, c: usize, matrix: &mut [u32])
    requires { (c < w) × (w ≤ max_width) × (length matrix.old ≡ w * w) }
    ensures { rows_of w w matrix.new ≡ exchange c (rows_of w w matrix.old) }
{
    let start = c * w;
    let end = start + w;
    let mut solution = [0u32; STATE_WORDS];
    solve_row(c, &mut matrix[start..end]);
    words::put(&mut solution, 0, &matrix[start..end]);
    substitute_all(c, &solution[0..w], c, &mut matrix[0..start]);
    substitute_all(c, &solution[0..w], w - c - 1, &mut matrix[end..]);
}

// The unknowns from c on. Each call has one fewer.
pub(crate) fn eliminate(w: usize, c: usize, matrix: &mut [u32]) -> bool
    requires { (c ≤ w) × (w ≤ max_width) × (length matrix.old ≡ w * w) }
    ensures { Eliminated w (eliminate (w - c) c (rows_of w w matrix.old)) result matrix.new }
{
    if c == w {
        return true;
    }
    let i = pivot(w, c, matrix);
    if i == w {
        return false;
    }
    swap_rows(w, c, i, &mut *matrix);
    exchange(w, c, &mut *matrix);
    if !eliminate(w, c + 1, &mut *matrix) {
        return false;
    }
    swap_columns(w, c, i, matrix);
    true
}
