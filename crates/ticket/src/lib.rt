// A ticket line of the scale house (document 02, R-1): which wire it names and how many grams, and grams as steps.
//
// Of a line the byte between the numbers and the last one are looked at first, and then each column once, from the left:
// blanks, then digits that do not begin with 0, and in the last column a digit. Every open function answers on every input.

#![tactic(auto)]

ghost use Rattle.std.specs.Prelude.{◌^◌, ◌≤◌, ◌<◌, ◌≡◌, length};
ghost use Rattle.ticket.specs.Form.{read_line};
ghost use Rattle.ticket.specs.Steps.{grams_to_steps};
ghost use Rattle.ticket.specs.Scan.{with_digit, with_column, scanned};

// How many bytes a line has: the wire in 0 to 9, a blank in 10, the grams in 11 to 22, a newline in 23.
pub const LINE: usize = 24;

// A blank, which pads on the left and stands between the two numbers.
const BLANK: u8 = 32;

// What ends a line.
const NEWLINE: u8 = 10;

// The digits 0 and 9.
const ZERO: u8 = 48;

const NINE: u8 = 57;

// What a ticket says: a wire, and grams.
#[derive(Clone, Copy)]
pub struct Ticket {
    pub wire: u64,
    pub grams: u64,
}

// Grams as steps.
pub fn grams_to_steps(grams: u64) -> u64
    ensures { result ≡ grams_to_steps grams }
{
    let whole = grams / 50;
    if grams % 50 < 25 {
        return whole;
    }
    whole + 1
}

// A digit behind the number n; None where it is no digit.
fn with_digit(n: u64, b: u8) -> Option<u64>
    requires { n < 10 ^ 11 }
    ensures { result ≡ with_digit n b }
{
    if b < ZERO {
        return None;
    }
    if NINE < b {
        return None;
    }
    Some(n * 10 + (b - ZERO) as u64)
}

// A column behind the number n that is not the last: while n is 0 a blank may stand there and no 0.
#[tactic(auto, unfolding(crate::specs::Scan::with_column))]
fn with_column(n: u64, b: u8) -> Option<u64>
    requires { n < 10 ^ 11 }
    ensures { result ≡ with_column n b }
{
    if n == 0 {
        if b == BLANK {
            return Some(0);
        }
        if b == ZERO {
            return None;
        }
    }
    with_digit(n, b)
}

// The number in `columns` and the last column behind them.
fn number_in(columns: &[u8], last: u8) -> Option<u64>
    requires { length columns.now ≤ 11 }
    ensures { result ≡ scanned columns.now last }
{
    let mut n: u64 = 0;
    for b in columns {
        n = with_column(n, *b)?;
    }
    with_digit(n, last)
}

// Which ticket a line is of, if it is any's.
pub fn read_line(line: &[u8]) -> Option<Ticket>
    ensures { result ≡ read_line line.now }
{
    if line.len() != LINE {
        return None;
    }
    if line[10] != BLANK {
        return None;
    }
    if line[23] != NEWLINE {
        return None;
    }
    let wire = number_in(&line[0..9], line[9])?;
    let grams = number_in(&line[11..22], line[22])?;
    Some(Ticket { wire, grams })
}
