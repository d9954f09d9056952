// A permutation of units by its parameters: question 17, a state turned in place, and how many steps of a
// trace are evaluations.
//
// The parameters (document 01's sheet, in place of the source's `Permutation`) are lent as words: R rounds,
// each a kind and w constants, then the w·w words of the matrix, row by row. Every function answers on every
// input; what it answers is a definition of specs/.

#![tactic(auto, unfolding(limits::specs::Questions::ask, limits::specs::Questions::first_of_two, crate::specs::Parameters::permute_no))]

ghost use Rattle.std.specs.Prelude.{◌≡◌, ◌+◌, ◌≤◌, length};
ghost use Rattle.limits.specs.Questions.{ask};
ghost use Rattle.limits.specs.Outcome.{outcome_of};
ghost use Rattle.words.specs.Pieces.{pieces};
ghost use Rattle.permute.specs.Parameters.{sound_parameters, permute_no, permuted, is_evaluation, leading};
ghost use Rattle.permute.specs.Walks.{Ready};

use limits::{MAX_WIDTH, P, Refused, STATE_WORDS};

mod matrix;
mod rounds;
mod sound;

// Question 17.
pub fn ask_parameters(width: u32, rounds: u32, params: &[u32]) -> Result<(), Refused>
    ensures { result ≡ outcome_of (ask 17 (sound_parameters width rounds params.now)) }
{
    limits::ask(17, sound::sound_parameters(width, rounds, params))
}

// The questions of `permute`: 1, 2, 9, 4 and 17.
fn ask_permute(width: u32, rounds: u32, params: &[u32], state: &[u32]) -> Result<(), Refused>
    ensures { result ≡ outcome_of (permute_no width rounds params.now state.now) }
{
    limits::ask_width(width)?;
    limits::ask_store(params.len())?;
    limits::ask_store(state.len())?;
    limits::ask(9, state.len() == width as usize)?;
    words::ask_below(state, P, 4)?;
    ask_parameters(width, rounds, params)
}

// The state's units turned by the permutation, in place (the source's `Permutation::permute`).
pub fn permute(width: u32, rounds: u32, params: &[u32], state: &mut [u32]) -> Result<(), Refused>
    ensures { (result ≡ outcome_of (permute_no width rounds params.now state.old))
        × (state.new ≡ permuted width rounds params.now state.old) }
{
    ask_permute(width, rounds, params, state)?;
    rounds::run_rounds(rounds as usize, params, state);
    Ok(())
}

// How many of the trace's first steps are evaluations, one after the other, up to the first that is none? A
// step is a piece of 2w words. Question 17 is put once for all of them.
pub fn evaluations(width: u32, rounds: u32, params: &[u32], trace: &[u32], steps: u32) -> u32
    ensures { result ≡ leading (is_evaluation width rounds params.now) (pieces (width + width) steps trace.now) }
{
    if width < 1 {
        return 0;
    }
    if MAX_WIDTH < width {
        return 0;
    }
    if !sound::sound_parameters(width, rounds, params) {
        return 0;
    }
    let mut state = [0u32; STATE_WORDS];
    leading(
        rounds as usize,
        params,
        trace,
        steps,
        &mut state[0..width as usize],
    )
}

// The same for sound parameters, with room for the state.
fn leading(rounds: usize, params: &[u32], trace: &[u32], steps: u32, state: &mut [u32]) -> u32
    requires { Ready rounds params.now state.old }
    ensures { result ≡ leading (is_evaluation (length state.old) rounds params.now)
        (pieces (length state.old + length state.old) steps trace.now) }
{
    let size = state.len() + state.len();
    let mut found = 0;
    for step in trace.chunks_exact(size).take(steps as usize) {
        if !evaluates(rounds, params, step, &mut *state) {
            return found;
        }
        found += 1;
    }
    found
}

// Does the permutation turn the step's first w units into its last w? They are turned in the room for the
// state.
fn evaluates(rounds: usize, params: &[u32], step: &[u32], state: &mut [u32]) -> bool
    requires { Ready rounds params.now state.old × (length state.old ≤ length step.now) }
    ensures { result ≡ is_evaluation (length state.old) rounds params.now step.now }
{
    let w = state.len();
    let first = &step[0..w];
    if !baby_bear::are_units(first) {
        return false;
    }
    words::put(&mut *state, 0, first);
    rounds::run_rounds(rounds, params, &mut *state);
    &*state == &step[w..]
}
