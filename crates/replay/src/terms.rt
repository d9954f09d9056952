// Operations 17 and 20: a list of terms, scaled and put as an equation. 17 is an equation as it is: the factor is 1.
//
// A case has TERMS terms, a wire and a weight each; those in front that the equation does not have are 0.

ghost use Rattle.std.specs.Prelude.{◌≡◌, ◌≤◌, drop};
ghost use Rattle.expr.specs.Weighted.{terms_of, scale, scale_terms};
ghost use Rattle.permutation.specs.Records.{recorded};
ghost use Rattle.recording.specs.Answers.{add_equation, add_equation_equations};

use crate::answer::Answer;
use crate::sample::{Case, word};
use allocator::FieldVar;
use baby_bear::BabyBearUnit;
use expr::Weighted;
use limits::Refused;
use permutation::PermutationRelation;

// How many terms a case has.
const TERMS: usize = 8;

// The terms of a list.
fn take_terms(list: &[u32]) -> [Weighted; TERMS] {
    std::array::from_fn(|i| Weighted {
        var: FieldVar(word(list, 2 * i)),
        weight: BabyBearUnit(word(list, 2 * i + 1)),
    })
}

// What the two calls on a list of terms answer.
#[derive(Clone, Copy)]
struct Equated {
    scaled: Result<(), Refused>,
    recorded: Result<(), Refused>,
}

// The terms scaled, and those from place `from` on put as an equation.
fn equate(
    rel: &mut PermutationRelation,
    equations: &mut [u32],
    terms: [Weighted; TERMS],
    from: usize,
    factor: BabyBearUnit,
    image: BabyBearUnit,
) -> Equated
    requires { from ≤ 8 }
    ensures { (result.scaled ≡ scale terms factor.0)
        × (recorded result.recorded rel.new ≡ add_equation rel.old equations.old (terms_of (drop from (scale_terms terms factor.0))) image.0)
        × (equations.new ≡ add_equation_equations rel.old equations.old (terms_of (drop from (scale_terms terms factor.0))) image.0) }
{
    let mut list = terms;
    let scaled = expr::scale(&mut list, factor);
    let recorded = recording::add_equation(rel, equations, &list[from..], image);
    Equated { scaled, recorded }
}

// 17, 20: how many terms are not the equation's, image, record, factor, equations, terms; the equation's number, that of
// the scaling, the record, the equations.
pub(crate) fn add_equation(case: &Case, equations: &mut [u32]) -> Answer {
    let given = case.given();
    let mut relation = given.relation();
    let equated = equate(
        &mut relation,
        equations,
        take_terms(case.one()),
        TERMS.min(given.x() as usize),
        BabyBearUnit(given.factor()),
        BabyBearUnit(given.y()),
    );
    Answer::from(equated.recorded)
        .with_value(limits::number(&equated.scaled))
        .with_relation(&relation)
}
