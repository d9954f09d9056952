// Question 17: are the words parameters of a permutation?

ghost use Rattle.std.specs.Prelude.{◌≡◌, ◌+◌, ◌*◌, ◌≤◌, eqb, length};
ghost use Rattle.permute.specs.Parameters.{max_rounds, rounds_of, sound_kinds, sound_parameters};

// The most rounds.
const MAX_ROUNDS: u32 = 128;

// Has the list R(w+1) + w·w words? The square is taken away first, so that no sum can be too large.
fn exact_length(width: u32, rounds: u32, len: usize) -> bool
    requires { rounds ≤ max_rounds }
    ensures { result ≡ eqb len (rounds * (width + 1) + width * width) }
{
    let w = width as usize;
    let square = w * w;
    if len < square {
        return false;
    }
    len - square == rounds as usize * (w + 1)
}

// Is the kind of each round 0 or 1?
fn sound_kinds(width: u32, rounds: u32, params: &[u32]) -> bool
    requires { rounds * (width + 1) ≤ length params.now }
    ensures { result ≡ sound_kinds (rounds_of width rounds params.now) }
{
    params
        .chunks_exact(width as usize + 1)
        .take(rounds as usize)
        .all(|round| round[0] < 2)
}

// 17: R at most 128, as many words as R and the width say, kinds 0 or 1, units below p?
pub(crate) fn sound_parameters(width: u32, rounds: u32, params: &[u32]) -> bool
    ensures { result ≡ sound_parameters width rounds params.now }
{
    if MAX_ROUNDS < rounds {
        return false;
    }
    if !exact_length(width, rounds, params.len()) {
        return false;
    }
    if !sound_kinds(width, rounds, params) {
        return false;
    }
    baby_bear::are_units(params)
}
