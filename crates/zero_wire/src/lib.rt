// 46 (document 02, R-7): provers take only instances that list wire 0 with value 0. After 27 that is: there are wires,
// and the first pair is wire 0 with value 0; so two words answer it, however many publics there are.
//
// Every open function answers on every input.

#![tactic(auto)]

ghost use Rattle.std.specs.Prelude.{◌≡◌};
ghost use Rattle.limits.specs.Outcome.{asked};
ghost use Rattle.instance.specs.Parts.{pairs_at};
ghost use Rattle.zero_wire.specs.Zero.{zero_first, starts_at_zero};

use limits::Refused;

// Is the first of n pairs wire 0 with value 0? There is none where n is 0; words that the store lacks are taken to be 0.
fn zero_first(publics: &[u32], n: u32) -> bool
    ensures { result ≡ zero_first (pairs_at n publics.now) }
{
    if n == 0 {
        return false;
    }
    if held::word_at(publics, 0) != 0 {
        return false;
    }
    held::word_at(publics, 1) == 0
}

// Are there wires, and is the first of n pairs wire 0 with value 0?
fn starts_at_zero(vars: u32, publics: &[u32], n: u32) -> bool
    ensures { result ≡ starts_at_zero vars (pairs_at n publics.now) }
{
    if vars == 0 {
        return false;
    }
    zero_first(publics, n)
}

// 46, after 27 said yes: there are wires, and the first of n pairs is wire 0 with value 0.
pub fn ask_zero_wire(vars: u32, publics: &[u32], n: u32) -> Result<(), Refused>
    ensures { result ≡ asked 46 (starts_at_zero vars (pairs_at n publics.now)) }
{
    limits::ask(46, starts_at_zero(vars, publics, n))
}
