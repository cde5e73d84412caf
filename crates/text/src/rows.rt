// Rows of bit patterns, a word each.
ghost use Rattle.std.specs.Prelude.{◌≡◌, None, Some, MatchOption};
ghost use Rattle.text.specs.Rows.{patterns_of, after_words};

use crate::{pattern_of, split_word};

// The floats whose patterns the first N words are, and what follows these words.
pub fn patterns<const N: usize>(text: &str) -> Option<([f64; N], &str)>
    ensures { MatchOption result (patterns_of N text.now ≡ None) (λ r. (patterns_of N text.now ≡ Some r.0) × (r.1.now ≡ after_words N text.now)) }
{
    let mut row = [0.0; N];
    let mut rest = text;
    for x in row.iter_mut() {
        let (word, after) = split_word(rest);
        *x = pattern_of(word)?;
        rest = after;
    }
    Some((row, rest))
}
