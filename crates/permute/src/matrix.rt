// A matrix times a state, four columns at a time, with one reduction for each row.
//
// Four products of units fit a u64. A row's sum is held in two parts, the sum of the low and that of the high
// 32 bits. The matrix is turned beforehand, so that the words of a column lie side by side, each in a u64: the
// processor multiplies several of them at once as they lie there.

ghost use Rattle.std.specs.Prelude.{◌≡◌, suc, ◌+◌, ◌*◌, ◌%◌, ◌<◌, length};
ghost use Rattle.limits.specs.Numbers.{prime};
ghost use Rattle.permute.specs.Permute.{times_matrix};
ghost use Rattle.permute.specs.Columns.{turned_rows, four, half, half_leaves, wide_end};
ghost use Rattle.permute.specs.Walks.{MatrixAsked, Turned, ColumnAsked, ColumnPut, ProductAsked, FourAsked, SumsAsked, SumsAdded, NoSums, Summing, Summed};

use baby_bear::{HALF, HALF_LEAVES};
use limits::{P, STATE_WORDS};

// Column k of the matrix, its words side by side from `at` on.
fn put_column(matrix: &[u32], w: usize, k: usize, at: usize, columns: &mut [u64])
    requires { ColumnAsked matrix.now w k at columns.old }
    ensures { ColumnPut matrix.now w k at columns.old columns.new }
{
    let column = &matrix[k..];
    for (i, word) in columns[at..at + w].iter_mut().enumerate() {
        *word = u64::from(column[i * w]);
    }
}

// The matrix with the words of each column side by side.
pub(crate) fn turn_matrix(matrix: &[u32], w: usize, columns: &mut [u64])
    requires { MatrixAsked matrix.now w columns.old }
    ensures { Turned matrix.now w columns.new }
{
    for k in 0..w {
        put_column(matrix, w, k, k * w, &mut *columns);
    }
}

// The product of two units, the first of which lies in a u64.
fn product(a: u64, b: u32) -> u64
    requires { a < prime }
    ensures { result ≡ a * b }
{
    a as u32 as u64 * b as u64
}

// The two parts of a sum, reduced.
fn reduced(low: u64, high: u64) -> u32
    requires { high * half_leaves + low < wide_end }
    ensures { result ≡ (high * half + low) % prime }
{
    ((high * HALF_LEAVES + low) % P as u64) as u32
}

// Word i of four columns, each times its unit, added up. They start at 0, step, 2·step and 3·step.
fn four(columns: &[u64], step: usize, a: u32, b: u32, c: u32, d: u32, i: usize) -> u64
    requires { FourAsked columns.now step a b c d (suc i) }
    ensures { result ≡ four columns.now step a b c d i }
{
    let s = product(columns[i], a) + product(columns[step + i], b);
    let t = product(columns[step * 2 + i], c) + product(columns[step * 3 + i], d);
    s + t
}

// Four columns, each times its unit, added to the first w sums.
fn add_columns(
    w: usize,
    columns: &[u64],
    step: usize,
    a: u32,
    b: u32,
    c: u32,
    d: u32,
    low: &mut [u64],
    high: &mut [u64],
)
    requires { FourAsked columns.now step a b c d w × SumsAsked w low.old high.old }
    ensures { SumsAdded (four columns.now step a b c d) w low.old high.old
        low.new high.new }
{
    for i in 0..w {
        let u = four(columns, step, a, b, c, d, i);
        low[i] += u % HALF;
        high[i] += u / HALF;
    }
}

// The columns by fours, each times its unit, added up; how many these are.
fn add_fours(columns: &[u64], x: &[u32], low: &mut [u64], high: &mut [u64]) -> usize
    requires { ProductAsked columns.now x.now × NoSums low.old high.old }
    ensures { Summing columns.now x.now (length x.now) low.new high.new
        result (result * length x.now) }
{
    let w = x.len();
    let fours = w - w % 4;
    for j in (0..fours).step_by(4) {
        let at = j * w;
        add_columns(
            w,
            &columns[at..at + 4 * w],
            w,
            x[j],
            x[j + 1],
            x[j + 2],
            x[j + 3],
            &mut *low,
            &mut *high,
        );
    }
    fours
}

// The columns from the one of that number on, each by itself.
fn add_rest(columns: &[u64], x: &[u32], first: usize, low: &mut [u64], high: &mut [u64])
    requires { ProductAsked columns.now x.now
        × Summing columns.now x.now (length x.now) low.old high.old first (first * length x.now) }
    ensures { Summed columns.now x.now (length x.now) low.new high.new }
{
    let w = x.len();
    for j in first..w {
        let at = j * w;
        add_columns(
            w,
            &columns[at..at + w],
            0,
            x[j],
            0,
            0,
            0,
            &mut *low,
            &mut *high,
        );
    }
}

// The matrix that is lent by columns times the state x, put into out.
pub(crate) fn times_matrix(columns: &[u64], x: &[u32], out: &mut [u32])
    requires { ProductAsked columns.now x.now × (length out.old ≡ length x.now) }
    ensures { out.new ≡ times_matrix (turned_rows (length x.now) (length x.now) 0 columns.now) x.now }
{
    let mut low = [0u64; STATE_WORDS];
    let mut high = [0u64; STATE_WORDS];
    let first = add_fours(columns, x, &mut low, &mut high);
    add_rest(columns, x, first, &mut low, &mut high);
    for (i, sum) in out.iter_mut().enumerate() {
        *sum = reduced(low[i], high[i]);
    }
}
