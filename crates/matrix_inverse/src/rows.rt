// Rows: one added to another, one solved for an unknown, the solution put into others, places exchanged.

ghost use Rattle.std.specs.Prelude.{◌≡◌, map, ◌*◌, ◌≤◌, ◌<◌, length};
ghost use Rattle.limits.specs.Numbers.{max_width};
ghost use Rattle.baby_bear.specs.Field.{mul_unit};
ghost use Rattle.permute.specs.Parameters.{rows_of};
ghost use Rattle.matrix_inverse.specs.Rows.{add_row, solve_row, substitute};
ghost use Rattle.matrix_inverse.specs.Inverse.{swap};

use baby_bear::BabyBearUnit;
use limits::P;

// p - 2: a unit other than 0 to this power is what it has the product 1 with.
const INVERSE: u32 = 2013265919;

// p - 1: a unit times it is minus the unit.
const MINUS_ONE: u32 = 2013265920;

// f times s added to the row.
fn add_row(f: u32, s: &[u32], row: &mut [u32])
    requires { length s.now ≡ length row.old }
    ensures { row.new ≡ add_row f s.now row.old }
{
    for (i, x) in row.iter_mut().enumerate() {
        *x = ((*x as u64 + f as u64 * s[i] as u64) % P as u64) as u32;
    }
}

// The row times f.
fn scale_row(f: BabyBearUnit, row: &mut [u32])
    ensures { row.new ≡ map (mul_unit f.0) row.old }
{
    for x in row.iter_mut() {
        *x = baby_bear::mul_unit(f, BabyBearUnit(*x)).0;
    }
}

// The row solved for unknown c.
pub(crate) fn solve_row(c: usize, row: &mut [u32])
    requires { c < length row.old }
    ensures { row.new ≡ solve_row c row.old }
{
    let inverse = powers::power_unit(BabyBearUnit(row[c]), INVERSE);
    let minus = baby_bear::mul_unit(BabyBearUnit(MINUS_ONE), inverse);
    scale_row(minus, &mut *row);
    row[c] = inverse.0;
}

// The solution s for unknown c put into the row.
fn substitute(c: usize, s: &[u32], row: &mut [u32])
    requires { (c < length row.old) × (length s.now ≡ length row.old) }
    ensures { row.new ≡ substitute c s.now row.old }
{
    let f = row[c];
    row[c] = 0;
    add_row(f, s, row);
}

// The solution put into n rows.
pub(crate) fn substitute_all(c: usize, s: &[u32], n: usize, rows: &mut [u32])
    requires { (c < length s.now) × (length s.now ≤ max_width) × (n ≤ max_width) × (length rows.old ≡ n * length s.now) }
    ensures { rows_of (length s.now) n rows.new
        ≡ map (substitute c s.now) (rows_of (length s.now) n rows.old) }
{
    let w = s.len();
    for i in 0..n {
        let at = i * w;
        substitute(c, s, &mut rows[at..at + w]);
    }
}

// Columns c and i of w rows exchanged.
pub(crate) fn swap_columns(w: usize, c: usize, i: usize, matrix: &mut [u32])
    requires { (c < w) × (i < w) × (w ≤ max_width) × (length matrix.old ≡ w * w) }
    ensures { rows_of w w matrix.new ≡ map (swap 0 c i) (rows_of w w matrix.old) }
{
    for k in 0..w {
        let at = k * w;
        matrix[at..at + w].swap(c, i);
    }
}
