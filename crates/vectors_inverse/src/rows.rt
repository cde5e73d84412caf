// Rows of bit patterns, a word each.
ghost use Rattle.std.specs.Prelude.{◌≡◌, None, Some, MatchOption};
ghost use Rattle.vectors_inverse.specs.Rows as Rows;
ghost use Rattle.vectors_inverse.specs.Rows.{is_pattern, row_ends, after_three, after_four};

use replay::same_pattern;
use text::{pattern_of, patterns, split_word};

// The ends of a geodesic by name; `geodesic` takes them as four floats, since the ported crate does.
#[derive(Clone, Copy, Debug, PartialEq)]
pub struct Ends {
    pub lat1: f64,
    pub lon1: f64,
    pub lat2: f64,
    pub lon2: f64,
}

// The ends that a row begins with, and what follows them.
pub fn ends_of(row: &str) -> Option<(Ends, &str)>
    ensures { MatchOption result (row_ends row.now ≡ None) (λ r. (row_ends row.now ≡ Some r.0) × (r.1.now ≡ after_four row.now)) }
{
    let ([lat1, lon1, lat2, lon2], after) = patterns::<4>(row)?;
    let ends = Ends {
        lat1,
        lon1,
        lat2,
        lon2,
    };
    Some((ends, after))
}

// Whether a word is the bit pattern of x.
fn is_pattern(word: &str, x: f64) -> bool
    ensures { result ≡ is_pattern word.now x }
{
    pattern_of(word).is_some_and(|y| same_pattern(y, x))
}

// Whether a text begins with the bit patterns of the figures, in their order.
pub fn writes(figures: &[f64], text: &str) -> bool
    ensures { result ≡ Rows.writes figures.now text.now }
{
    let mut rest = text;
    // Where the words end a figure meets the empty word; a zip would end there, and be content.
    for figure in figures {
        let (word, after) = split_word(rest);
        if !is_pattern(word, *figure) {
            return false;
        }
        rest = after;
    }
    true
}

// What follows the third word; the words need not be patterns here.
pub fn after_three(text: &str) -> &str
    ensures { result.now ≡ after_three text.now }
{
    let (_, first) = split_word(text);
    let (_, second) = split_word(first);
    let (_, third) = split_word(second);
    third
}
