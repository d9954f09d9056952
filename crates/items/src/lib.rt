// The lists of both byte forms (the source's encoding.rs), read from bytes at a cursor into a lent store: publics,
// queries, equations, and the steps of a trace.
//
// Each reader asks 2 of its store, and the width where it has one; then the count, and as many items, with 10 once an
// item has been read. The store then has the items' words, and 0 to its end; all 0 where the reader refuses. Every open
// function answers on every input.

#![tactic(auto)]

ghost use Rattle.std.specs.Prelude.{◌≡◌, ◌+◌, ◌≤◌, length, drop};
ghost use Rattle.limits.specs.Numbers.{max_count, max_width};
ghost use Rattle.limits.specs.Questions.{first_no};
ghost use Rattle.limits.specs.Outcome.{outcome_of};
ghost use Rattle.words.specs.Pieces.{flat};
ghost use Rattle.expr.specs.Equation.{equations_words};
ghost use Rattle.instance.specs.Parts.{pair_words};
ghost use Rattle.items.specs.Read.{read_publics, read_pieces, read_equations};
ghost use Rattle.items.specs.Answers.{publics_got, pieces_asks, pieces_got, equations_got, ListReads};
ghost use Rattle.items.specs.Told.{ListTold, kept_on};

use header::Field;
use limits::Refused;
use narg::Cursor;

mod into;

// Where that was answered, the store stays as it is; after a refusal it becomes all 0.
fn kept(list: Result<Field, Refused>, out: &mut [u32]) -> Result<Field, Refused>
    ensures { (result ≡ list) × (out.new ≡ kept_on list out.old) }
{
    if list.is_err() {
        words::fill(out, 0);
    }
    list
}

// ---- publics

// The public count and the pairs, into a store that is not too long.
fn publics_into(bytes: &[u8], c: Cursor, out: &mut [u32]) -> Result<Field, Refused>
    requires { length out.old ≤ max_count }
    ensures { ListTold (read_publics (length out.old) (drop c.at bytes.now))
        pair_words bytes.now (c.at + 4) out.old out.new result }
{
    let (n, next) = narg::read_u32(bytes, c).ok_or(Refused(20))?;
    into::read_pairs(bytes, next, n, out)
}

// The public count and the pairs. Questions 2; 20; per pair 20, 3, 20, 4, then 10.
pub fn read_publics(bytes: &[u8], c: Cursor, out: &mut [u32]) -> Result<Field, Refused>
    ensures { ListReads pair_words (publics_got (length out.old) bytes.now c.at) c.at
        out.old out.new result }
{
    words::fill(out, 0);
    limits::ask_store(out.len())?;
    kept(publics_into(bytes, c, out), out)
}

// ---- queries and steps

// The count and the pieces, into a store that is not too long.
fn pieces_into(
    bytes: &[u8],
    c: Cursor,
    width: u32,
    out: &mut [u32],
    bound: u32,
    k: u32,
) -> Result<Field, Refused>
    requires { (length out.old ≤ max_count) × (width ≤ max_width) }
    ensures { ListTold (read_pieces bound k width (length out.old) (drop c.at bytes.now))
        flat bytes.now (c.at + 4) out.old out.new result }
{
    let (n, next) = narg::read_u32(bytes, c).ok_or(Refused(20))?;
    into::read_pieces(bytes, next, n, out, width + width, bound, k)
}

// Questions 1 and 2 of pieces in a store of that length.
#[tactic(auto, unfolding(limits::specs::Questions::ask, limits::specs::Questions::first_of_two))]
pub fn ask_pieces(width: u32, len: usize) -> Result<(), Refused>
    ensures { result ≡ outcome_of (first_no (pieces_asks width len)) }
{
    limits::ask_width(width)?;
    limits::ask_store(len)
}

// The count and the pieces of 2w words, each below the bound. Questions 1, 2; 20; per word 20 and k, then 10 per piece.
pub fn read_pieces(
    bytes: &[u8],
    c: Cursor,
    width: u32,
    out: &mut [u32],
    bound: u32,
    k: u32,
) -> Result<Field, Refused>
    ensures { ListReads flat (pieces_got bound k width (length out.old) bytes.now c.at) c.at
        out.old out.new result }
{
    words::fill(out, 0);
    ask_pieces(width, out.len())?;
    kept(pieces_into(bytes, c, width, out, bound, k), out)
}

// ---- equations

// The equation count and the equations, into a store that is not too long.
fn equations_into(bytes: &[u8], c: Cursor, out: &mut [u32]) -> Result<Field, Refused>
    requires { length out.old ≤ max_count }
    ensures { ListTold (read_equations (length out.old) (drop c.at bytes.now))
        equations_words bytes.now (c.at + 4) out.old out.new result }
{
    let (n, next) = narg::read_u32(bytes, c).ok_or(Refused(20))?;
    into::read_equations(bytes, next, n, out)
}

// The equation count and the equations. Questions 2; 20; per equation 20, its terms' and its image's, then 10.
pub fn read_equations(bytes: &[u8], c: Cursor, out: &mut [u32]) -> Result<Field, Refused>
    ensures { ListReads equations_words (equations_got (length out.old) bytes.now c.at) c.at
        out.old out.new result }
{
    words::fill(out, 0);
    limits::ask_store(out.len())?;
    kept(equations_into(bytes, c, out), out)
}
