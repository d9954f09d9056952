// The state behind a digest: the input that a permutation turns into a given output.
//
// The matrix is inverted once a call, then the rounds are undone, the last one first: the inverse times the state,
// the 7th root of all elements or of the first, the constants taken away.

#![tactic(auto, unfolding(limits::specs::Questions::ask, limits::specs::Questions::first_of_two))]

ghost use Rattle.std.specs.Prelude.{◌≡◌};
ghost use Rattle.limits.specs.Outcome.{outcome_of};
ghost use Rattle.limits.specs.Questions.{first_no};
ghost use Rattle.inverse.specs.Answers.{permute_inverse_front, permute_inverse_no, permute_inverted, StateBehind};

use limits::{MATRIX_WORDS, P, Refused};

mod roots;
mod rounds;

// The questions 1, 2, 9, 4 and 17.
fn ask_permute_inverse(
    width: u32,
    rounds: u32,
    params: &[u32],
    output: &[u32],
    input: &[u32],
) -> Result<(), Refused>
    ensures { result ≡ outcome_of (first_no (permute_inverse_front width rounds params.now output.now input.now)) }
{
    limits::ask_width(width)?;
    limits::ask_store(params.len())?;
    limits::ask_store(output.len())?;
    limits::ask_store(input.len())?;
    limits::ask(9, output.len() == width as usize)?;
    limits::ask(9, input.len() == width as usize)?;
    words::ask_below(output, P, 4)?;
    permute::ask_parameters(width, rounds, params)
}

// The input that the permutation turns into the output, put into a list of its own (document 02's R-4).
pub fn permute_inverse(
    width: u32,
    rounds: u32,
    params: &[u32],
    output: &[u32],
    input: &mut [u32],
) -> Result<(), Refused>
    ensures { (result ≡ outcome_of (permute_inverse_no width rounds params.now output.now input.old))
        × (input.new ≡ permute_inverted width rounds params.now output.now input.old)
        × StateBehind width rounds params.now output.now result input.new }
{
    ask_permute_inverse(width, rounds, params, output, input)?;
    if rounds == 0 {
        words::put(input, 0, output);
        return Ok(());
    }
    let w = width as usize;
    let size = w * w;
    let start = rounds as usize * (w + 1);
    let mut inverse = [0u32; MATRIX_WORDS];
    words::put(&mut inverse, 0, &params[start..]);
    limits::ask(
        44,
        matrix_inverse::invert_matrix(width, &mut inverse[0..size]),
    )?;
    words::put(&mut *input, 0, output);
    rounds::undo_rounds(rounds as usize, params, &inverse[0..size], input);
    Ok(())
}
