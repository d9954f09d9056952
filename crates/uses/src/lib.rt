// Use counts: for each slot how many query cells name its wire, and how many cells name wires beyond the slots.
//
// A query's cells, lent as inputs a and outputs b, are struck from the counts or joined to them in place, each count by
// one for each cell, and the stray ones are counted on the way. Then the questions are asked, and where one says no the
// cells are taken back. So a join that fits looks at each cell once, a strike twice, and no buffer is needed.

#![tactic(auto)]

ghost use Rattle.std.specs.Prelude.{◌≡◌, true, ◌++◌, ◌≤◌, ltb, length, take, is_some, IfSome};
ghost use Rattle.limits.specs.Questions.{pick};
ghost use Rattle.uses.specs.Uses.{strays, count_fits, count_after, CountsCells};
ghost use Rattle.uses.specs.Moves.{MovesCell, Moves, TakesBack, cell_at_most, all_at_most, stray_fits};

use limits::{MAX_COUNT, Refused, UNASSIGNED};

// 0 where the test says yes, else 1.
fn one_unless(says: bool) -> usize
    ensures { (result ≡ pick says 0 1) × (result ≤ 1) }
{
    if says {
        return 0;
    }
    1
}

// Would a count of n be from 0 to 2^30 after `by` cells are struck, or joined?
fn count_fits(strike: bool, n: u32, by: usize) -> bool
    ensures { result ≡ count_fits strike n by }
{
    let held = n as usize;
    if strike {
        if held < by {
            return false;
        }
        return held - by <= MAX_COUNT as usize;
    }
    if (MAX_COUNT as usize) < by {
        return false;
    }
    held + by <= MAX_COUNT as usize
}

// The same of the stray count, which is asked only where a cell is stray.
fn stray_fits(strike: bool, stray: u32, by: usize) -> bool
    ensures { result ≡ stray_fits strike stray by }
{
    if by == 0 {
        return true;
    }
    count_fits(strike, stray, by)
}

// The stray count afterwards.
fn stray_after(strike: bool, stray: u32, by: usize) -> u32
    requires { stray_fits strike stray by ≡ true }
    ensures { result ≡ count_after strike stray by }
{
    let held = stray as usize;
    if strike {
        return (held - by) as u32;
    }
    (held + by) as u32
}

// One cell struck, or joined up to `most`, where its wire is below end: 1 where it is stray, else 0. None, and nothing
// moved, where its count has no room.
fn move_cell(
    strike: bool,
    most: u32,
    end: usize,
    len: usize,
    uses: &mut [u32],
    x: u32,
) -> Option<usize>
    requires { (end ≤ length uses.old) × (end ≤ len) }
    ensures { MovesCell strike most end uses.old x (is_some result) uses.new × IfSome result (λ s. (s ≡ pick (ltb x len) 0 1) × (s ≤ 1)) }
{
    let at = x as usize;
    if end <= at {
        return Some(one_unless(at < len));
    }
    let n = uses[at];
    if strike {
        if n == 0 {
            return None;
        }
        uses[at] = n - 1;
        return Some(0);
    }
    if most <= n {
        return None;
    }
    uses[at] = n + 1;
    Some(0)
}

// A list's cells: how many are moved, and how many of those are stray.
#[derive(Clone, Copy)]
struct Moved {
    n: usize,
    strays: usize,
}

// Cells moved from the first on, before one whose count has no room.
fn move_cells(
    strike: bool,
    most: u32,
    end: usize,
    len: usize,
    uses: &mut [u32],
    cells: &[u32],
) -> Moved
    requires { (end ≤ length uses.old) × (end ≤ len) }
    ensures { Moves strike most end uses.old cells.now result.n uses.new × (result.strays ≡ strays len (take result.n cells.now)) × (result.strays ≤ result.n) }
{
    let mut strays: usize = 0;
    for (i, x) in cells.iter().enumerate() {
        let Some(stray) = move_cell(strike, most, end, len, uses, *x) else {
            return Moved { n: i, strays };
        };
        strays += stray;
    }
    Moved {
        n: cells.len(),
        strays,
    }
}

// Cells that were moved, moved back.
fn take_back(strike: bool, end: usize, uses: &mut [u32], cells: &[u32])
    requires { end ≤ length uses.old }
    ensures { TakesBack strike end uses.old cells.now uses.new }
{
    move_cells(!strike, UNASSIGNED, end, end, uses, cells);
}

// Both lists of cells, the last first.
fn take_both_back(strike: bool, end: usize, uses: &mut [u32], a: &[u32], b: &[u32])
    requires { end ≤ length uses.old }
    ensures { TakesBack strike end uses.old (a.now ++ b.now) uses.new }
{
    take_back(strike, end, uses, b);
    take_back(strike, end, uses, a);
}

// Is the count of a cell's wire, where that is below end, at most 2^30?
fn cell_at_most(end: usize, uses: &[u32], x: u32) -> bool
    requires { end ≤ length uses.now }
    ensures { result ≡ cell_at_most end uses.now x }
{
    let at = x as usize;
    if end <= at {
        return true;
    }
    uses[at] <= MAX_COUNT
}

// Are those of all cells? (Each is looked at, so that the fold has no exit of its own.)
fn at_most(end: usize, uses: &[u32], cells: &[u32]) -> bool
    requires { end ≤ length uses.now }
    ensures { result ≡ all_at_most end uses.now cells.now }
{
    cells
        .iter()
        .fold(true, |all, x| all & cell_at_most(end, uses, *x))
}

// Is every count below end that the cells of both lists have changed from 0 to 2^30? A join's is.
fn both_at_most(strike: bool, end: usize, uses: &[u32], a: &[u32], b: &[u32]) -> bool
    requires { end ≤ length uses.now }
    ensures { result ≡ pick strike (all_at_most end uses.now (a.now ++ b.now)) true }
{
    if !strike {
        return true;
    }
    let first = at_most(end, uses, a);
    let second = at_most(end, uses, b);
    first & second
}

// A query's cells, inputs a and outputs b, struck from the counts of a store of len slots or joined to them: the stray
// count afterwards. Questions 11 and 10, and then `rest`, what is asked after them. A refusal leaves every count as it was.
pub fn count_cells(
    strike: bool,
    len: usize,
    uses: &mut [u32],
    stray: u32,
    a: &[u32],
    b: &[u32],
    rest: Result<(), Refused>,
) -> Result<u32, Refused>
    ensures { CountsCells strike len uses.old stray (a.now ++ b.now) rest result uses.new }
{
    let end = len.min(uses.len());
    let first = move_cells(strike, MAX_COUNT, end, len, uses, a);
    let n = first.n;
    if n < a.len() {
        take_back(strike, end, uses, &a[..n]);
        return Err(Refused(11));
    }
    let second = move_cells(strike, MAX_COUNT, end, len, uses, b);
    let m = second.n;
    if m < b.len() {
        take_back(strike, end, uses, &b[..m]);
        take_back(strike, end, uses, a);
        return Err(Refused(11));
    }
    let by = first.strays + second.strays;
    let fit = stray_fits(strike, stray, by) & both_at_most(strike, end, uses, a, b);
    let asked = limits::ask(11, fit)
        .and(limits::ask(10, uses.len() == len))
        .and(rest);
    if let Err(refused) = asked {
        take_both_back(strike, end, uses, a, b);
        return Err(refused);
    }
    Ok(stray_after(strike, stray, by))
}
