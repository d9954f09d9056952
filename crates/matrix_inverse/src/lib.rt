// The inverse of a square matrix of units, in words, row by row.
//
// Row i says that v[i] is the sum over j of its words times u[j]. Unknown by unknown u[c] and v[c] are exchanged, in
// place: a row is solved for u[c] and the solution put into the others. In the end the rows give u by v.

#![tactic(auto)]

ghost use Rattle.std.specs.Prelude.{◌≡◌};
ghost use Rattle.matrix_inverse.specs.Words.{is_regular, inverted_words};

use limits::{MATRIX_WORDS, MAX_WIDTH};

mod elimination;
mod rows;

// The matrix of that many rows turned into its inverse. Where it has none, or where these are not the words of such
// a matrix, no, and the words stay as they are.
pub fn invert_matrix(width: u32, words: &mut [u32]) -> bool
    ensures { (result ≡ is_regular width words.old) × (words.new ≡ inverted_words width words.old) }
{
    if MAX_WIDTH < width {
        return false;
    }
    let w = width as usize;
    let size = w * w;
    if words.len() != size {
        return false;
    }
    let mut work = [0u32; MATRIX_WORDS];
    words::put(&mut work, 0, words);
    if !elimination::eliminate(w, 0, &mut work[0..size]) {
        return false;
    }
    words::put(words, 0, &work[0..size]);
    true
}
