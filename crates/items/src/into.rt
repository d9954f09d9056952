// Items read one after the other into a store: each with its own questions, then 10 once it has been read.
//
// A reader here may leave anything in the store where it refuses.

ghost use Rattle.std.specs.Prelude.{◌≡◌, ◌+◌, ◌≤◌, length, drop, set};
ghost use Rattle.limits.specs.Numbers.{max_count};
ghost use Rattle.words.specs.Pieces.{flat};
ghost use Rattle.narg.specs.Reader.{below, times, items};
ghost use Rattle.expr.specs.Equation.{equations_words};
ghost use Rattle.instance.specs.Parts.{pair_words};
ghost use Rattle.items.specs.Read.{read_pair, read_term, read_equation, pair_size, size_of};
ghost use Rattle.items.specs.Told.{FieldTold, PairTold, ListTold, TermsTold, EquationTold};

use header::Field;
use limits::{MAX_COUNT, P, Refused};
use narg::Cursor;

// ---- a field

// A word below the bound. Questions 20, k.
fn read_below(bytes: &[u8], c: Cursor, bound: u32, k: u32) -> Result<Field, Refused>
    ensures { FieldTold (below bound k (drop c.at bytes.now)) bytes.now (c.at + 4) result }
{
    let (value, next) = narg::read_u32(bytes, c).ok_or(Refused(20))?;
    limits::ask(k, value < bound)?;
    Ok(Field {
        value,
        extra: 0,
        next,
    })
}

// A wire and a unit: a public pair, a term. Questions 20, 3, 20, 4.
fn read_two(bytes: &[u8], c: Cursor) -> Result<Field, Refused>
    ensures { PairTold (read_pair (drop c.at bytes.now)) bytes.now (c.at + 8) result }
{
    let var = read_below(bytes, c, MAX_COUNT, 3)?;
    let unit = read_below(bytes, var.next, P, 4)?;
    Ok(Field {
        value: var.value,
        extra: unit.value,
        next: unit.next,
    })
}

// A word of a store, where the store has that place.
fn put_word(out: &mut [u32], i: usize, v: u32)
    ensures { out.new ≡ set out.old i v }
{
    if i < out.len() {
        out[i] = v;
    }
}

// ---- pairs

// n pairs, then 10 after each.
pub(crate) fn read_pairs(bytes: &[u8], c: Cursor, n: u32, out: &mut [u32]) -> Result<Field, Refused>
    requires { length out.old ≤ max_count }
    ensures { ListTold (items read_pair pair_size (length out.old) 0 n (drop c.at bytes.now))
        pair_words bytes.now c.at out.old out.new result }
{
    let mut next = c;
    let mut to: usize = 0;
    for _ in 0..n {
        let two = read_two(bytes, next)?;
        if out.len() - to < 2 {
            return Err(Refused(10));
        }
        out[to] = two.value;
        out[to + 1] = two.extra;
        next = two.next;
        to += 2;
    }
    Ok(Field {
        value: n,
        extra: to as u32,
        next,
    })
}

// ---- pieces

// n pieces of `size` words, each word below the bound (20, k), then 10.
pub(crate) fn read_pieces(
    bytes: &[u8],
    c: Cursor,
    n: u32,
    out: &mut [u32],
    size: u32,
    bound: u32,
    k: u32,
) -> Result<Field, Refused>
    requires { length out.old ≤ max_count }
    ensures { ListTold
        (items (times (below bound k) size) (λ q. size) (length out.old) 0 n (drop c.at bytes.now))
        flat bytes.now c.at out.old out.new result }
{
    let mut next = c;
    let mut to: usize = 0;
    for _ in 0..n {
        next = narg::read_words(bytes, next, out, to, size, bound, k)?;
        to += size as usize;
    }
    Ok(Field {
        value: n,
        extra: to as u32,
        next,
    })
}

// ---- equations

// t terms into the store from a place on, as far as it holds them. Questions 20, 3, 20, 4 per term.
fn read_terms(
    bytes: &[u8],
    c: Cursor,
    t: u32,
    out: &mut [u32],
    place: usize,
) -> Result<Field, Refused>
    requires { place ≤ max_count + 1 }
    ensures { TermsTold (times read_term t (drop c.at bytes.now))
        bytes.now c.at out.old out.new place result }
{
    let mut next = c;
    let mut to = place;
    for _ in 0..t {
        let two = read_two(bytes, next)?;
        put_word(out, to, two.value);
        put_word(out, to + 1, two.extra);
        next = two.next;
        to += 2;
    }
    Ok(Field {
        value: t,
        extra: 0,
        next,
    })
}

// An equation into the store at a place: the term count, the terms, the image; 10 once it has all been read.
fn read_equation(bytes: &[u8], c: Cursor, out: &mut [u32], place: usize) -> Result<Field, Refused>
    requires { place ≤ max_count }
    ensures { EquationTold bytes.now c.at out.old out.new place result }
{
    let (t, first) = narg::read_u32(bytes, c).ok_or(Refused(20))?;
    put_word(out, place, t);
    let terms = read_terms(bytes, first, t, out, place + 1)?;
    let image = read_below(bytes, terms.next, P, 4)?;
    let count = t as usize;
    put_word(out, place + 1 + 2 * count, image.value);
    limits::ask(10, expr::equation_fits(place, count, out.len()))?;
    Ok(Field {
        value: t,
        extra: 0,
        next: image.next,
    })
}

// n equations one after the other.
pub(crate) fn read_equations(
    bytes: &[u8],
    c: Cursor,
    n: u32,
    out: &mut [u32],
) -> Result<Field, Refused>
    requires { length out.old ≤ max_count }
    ensures { ListTold (items read_equation size_of (length out.old) 0 n (drop c.at bytes.now))
        equations_words bytes.now c.at out.old out.new result }
{
    let mut next = c;
    let mut to: usize = 0;
    for _ in 0..n {
        let equation = read_equation(bytes, next, out, to)?;
        next = equation.next;
        to += 2 + 2 * equation.value as usize;
    }
    Ok(Field {
        value: n,
        extra: to as u32,
        next,
    })
}
