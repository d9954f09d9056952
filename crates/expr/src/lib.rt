// Linear equations as words of a store (the source's expr.rs): a term count, then wire and weight per term,
// then the image.
//
// Terms are lent as a list of records, `Weighted`, in order; repeats and zero weights are kept. Each function
// is total and says what it answers and what every word and record lent is afterwards.

#![tactic(auto, unfolding(limits::specs::Questions::ask, limits::specs::Questions::first_of_two, crate::specs::Weighted::scale_no))]

ghost use Rattle.std.specs.Prelude.{◌≡◌, map, ◌+◌, ◌≤◌, ◌<◌, leb, length, set};
ghost use Rattle.std.proofs.lemmas.List.Edits.{sets};
ghost use Rattle.limits.specs.Numbers.{word_end};
ghost use Rattle.limits.specs.Outcome.{outcome_of};
ghost use Rattle.limits.specs.Questions.{pick, first_no};
ghost use Rattle.expr.specs.Equation.{equation, equation_size, term_words, terms_asks, fit_equation, equation_fits, put_ends};
ghost use Rattle.expr.specs.Weighted.{terms_of, scaled_by, scale, scale_terms};

use allocator::FieldVar;
use baby_bear::BabyBearUnit;
use limits::{MAX_COUNT, P, Refused, WORD_END};

// A wire scaled by a constant: weight · var.
#[repr(C)]
#[derive(Clone, Copy)]
pub struct Weighted {
    pub var: FieldVar,
    pub weight: BabyBearUnit,
}

// Questions 3 and 4 of the terms: every wire, then every weight. The terms are looked at once, each of them, so that the
// loop has no exit of its own.
pub fn ask_terms(terms: &[Weighted]) -> Result<(), Refused>
    ensures { result ≡ outcome_of (first_no (terms_asks (terms_of terms.now))) }
{
    let mut wires = true;
    let mut weights = true;
    for t in terms {
        wires &= t.var.0 < MAX_COUNT;
        weights &= t.weight.0 < P;
    }
    limits::ask(3, wires)?;
    limits::ask(4, weights)
}

// Does a store of len words hold an equation of n terms at place `at`?
pub fn equation_fits(at: usize, n: usize, len: usize) -> bool
    ensures { result ≡ leb (at + equation_size n) len }
{
    if len < at {
        return false;
    }
    if len - at < 2 {
        return false;
    }
    n <= (len - at - 2) / 2
}

// One term's wire and weight, as the i-th of the terms whose words start at place `at`; what does not fit is
// left out.
fn put_term(out: &mut [u32], at: usize, i: usize, t: Weighted)
    ensures { out.new ≡ set (set out.old (at + (i + i)) t.var.0) (at + (i + i) + 1) t.weight.0 }
{
    let wire = t.var.0;
    let weight = t.weight.0;
    if at < out.len() {
        let left = out.len() - at;
        if i < left {
            let behind = left - i;
            if i < behind {
                out[at + (i + i)] = wire;
                if i + 1 < behind {
                    out[at + (i + i) + 1] = weight;
                }
            }
        }
    }
}

// The terms' words from place `at` on; what does not fit is left out.
fn put_terms(terms: &[Weighted], out: &mut [u32], at: usize)
    ensures { out.new ≡ sets out.old at (term_words (terms_of terms.now)) }
{
    for (i, t) in terms.iter().enumerate() {
        put_term(out, at, i, *t);
    }
}

// The count and the image of an equation of n terms at place `at`, where it fits.
fn write_ends(out: &mut [u32], at: usize, n: usize, image: u32)
    requires { (n < word_end) × (at + equation_size n ≤ length out.old) }
    ensures { out.new ≡ put_ends at n image out.old }
{
    out[at] = n as u32;
    out[at + 1 + 2 * n] = image;
}

// The words of an equation of n terms at place `at` but for its terms: the count and the image. The answer is
// whether the equation fits; where it does not, nothing is written.
fn put_ends(out: &mut [u32], at: usize, n: usize, image: u32) -> bool
    ensures { (result ≡ equation_fits at n (length out.old)) × (out.new ≡ pick result (put_ends at n image out.old) out.old) }
{
    if WORD_END <= n {
        return false;
    }
    if !equation_fits(at, n, out.len()) {
        return false;
    }
    write_ends(out, at, n, image);
    true
}

// The equation's words at place `at` of the store. Nothing is written where they do not fit, or where the
// count of terms is no word.
pub fn put_equation(out: &mut [u32], at: usize, terms: &[Weighted], image: u32)
    ensures { out.new ≡ fit_equation at (equation (terms_of terms.now) image) out.old }
{
    if put_ends(out, at, terms.len(), image) {
        put_terms(terms, out, at + 1);
    }
}

// A term with its weight times the factor.
fn scaled_term(t: Weighted, factor: BabyBearUnit) -> Weighted
    ensures { result ≡ scaled_by factor.0 t }
{
    Weighted {
        var: t.var,
        weight: baby_bear::mul_unit(t.weight, factor),
    }
}

// Every weight times the factor, with no question asked.
fn scale_all(terms: &mut [Weighted], factor: BabyBearUnit)
    ensures { terms.new ≡ map (scaled_by factor.0) terms.old }
{
    for t in terms.iter_mut() {
        *t = scaled_term(*t, factor);
    }
}

// Every weight times the factor (the source's product of a sum and a unit). Questions 3 over all wires, 4 over
// all weights and the factor; a refusal leaves the list as it was.
pub fn scale(terms: &mut [Weighted], factor: BabyBearUnit) -> Result<(), Refused>
    ensures { (result ≡ scale terms.old factor.0) × (terms.new ≡ scale_terms terms.old factor.0) }
{
    ask_terms(terms)?;
    limits::ask(4, factor.0 < P)?;
    scale_all(terms, factor);
    Ok(())
}
