// Items struck from the words of a lent store, and the walk over equations.

#![tactic(auto)]

ghost use Rattle.std.specs.Prelude.{◌≡◌};
ghost use Rattle.strike.specs.Strike.{fit_struck, end_within};

// n words struck at place `at` from the words before `end`: later ones move down, and the freed ones become
// 0. Where those words are not there, the store stays as it is.
pub fn strike_words(s: &mut [u32], at: usize, n: usize, end: usize)
    ensures { s.new ≡ fit_struck at n end s.old }
{
    if s.len() < end {
        return;
    }
    if end < at {
        return;
    }
    if end - at < n {
        return;
    }
    s.copy_within(at + n..end, at);
    words::fill(&mut s[end - n..end], 0);
}

// Where n equations end, or none where they don't end within the words.
pub fn end_within(held: &[u32], n: u32) -> Option<usize>
    ensures { result ≡ end_within n held.now }
{
    let mut at: usize = 0;
    for _ in 0..n {
        let size = held::size_at(held, at);
        if held.len() - at < size {
            return None;
        }
        at += size;
    }
    Some(at)
}
