// Text: the lines of a text, the words of a line, decimal numbers, and bit patterns of floats in
// hexadecimal.
#![tactic(auto)]

ghost use Rattle.std.specs.Prelude.{◌≡◌, ◌<◌, ◌≤◌, ◌∷◌, length, if◌then◌else◌, Some, None, to_bits};
ghost use Rattle.std.specs.Char.{digit_char, is_ascii_whitespace};
ghost use Rattle.std.specs.Float.{binary64};
ghost use Rattle.std.specs.List.{position_or_len};
ghost use Rattle.std.specs.Str.Parse.{digits_value};
ghost use Rattle.text.specs.Decimals.{ReadsDecimal};
ghost use Rattle.text.specs.Patterns.{hex_digits, hexadecimal, pattern_digits, pattern_of};
ghost use Rattle.text.specs.Words.{first_word, after_word, first_line, after_line, lines_of, lines_left};

mod rows;
mod walk;

pub use rows::patterns;
use std::fmt;
use std::num::{f64_from_bits_with_nan, f64_to_bits_with_nan};
pub use walk::Lines;

// How many bytes stand before the first white one.
fn word_len(bytes: &[u8]) -> usize
    ensures { result ≡ position_or_len is_ascii_whitespace bytes.now }
{
    bytes
        .iter()
        .position(|byte| byte.is_ascii_whitespace())
        .unwrap_or(bytes.len())
}

// The first word of a text, empty where there is none, and what follows it.
pub fn split_word(text: &str) -> (&str, &str)
    ensures word { result.0.now ≡ first_word text.now }
    ensures rest { result.1.now ≡ after_word text.now }
{
    let from_word = text.trim_ascii_start();
    from_word.split_at(word_len(from_word.as_bytes()))
}

// The first line of a text, without its newline, and what follows it.
pub fn split_line(text: &str) -> (&str, &str)
    ensures line { result.0.now ≡ first_line text.now }
    ensures rest { result.1.now ≡ after_line text.now }
    ensures lines { 0 < length text.now → lines_of text.now ≡ result.0.now ∷ lines_of result.1.now }
    ensures shorter { 0 < length text.now → length result.1.now < length text.now }
{
    text.split_once('\n').unwrap_or((text, ""))
}

// The lines of a text, in their order.
pub fn lines(text: &str) -> Lines<'_>
    ensures lines { lines_left result ≡ lines_of text.now }
    ensures rest { result.rest.now ≡ text.now }
{
    Lines { rest: text }
}

// The number that a word writes in decimal; `inf` and `nan` are words of numbers too.
pub fn decimal(word: &str) -> Option<f64>
    ensures { ReadsDecimal word.now result }
{
    word.parse().ok()
}

// The character that writes a digit, as a byte: `char::from_digit` answers a `char` in an `Option`.
fn digit_char(digit: u8) -> u8
    requires { digit < 16 }
    ensures { result ≡ digit_char digit }
{
    if digit < 10 {
        b'0' + digit
    } else {
        b'a' + (digit - 10)
    }
}

// The bit pattern of x as sixteen hexadecimal digits, the most significant first.
pub fn pattern_digits(x: f64) -> [u8; 16]
    ensures digits { result ≡ pattern_digits x }
    ensures reads_back { pattern_of result ≡ Some x }
{
    let mut digits = [0; 16];
    let mut rest = Pattern::from(x).bits;
    // By index: a proof knows nothing of elements that were written behind `iter_mut().rev()`.
    for i in (0..16).rev() {
        digits[i] = digit_char((rest % 16) as u8);
        rest /= 16;
    }
    digits
}

// The number that at most sixteen hexadecimal digits write. Digit by digit: `from_str_radix` takes a
// plus before them too.
fn number_of(digits: &[u8]) -> Option<u64>
    requires { length digits.now ≤ 16 }
    ensures { result ≡ (if hexadecimal digits.now then Some (digits_value 16 digits.now) else None) }
{
    let mut number = 0;
    for byte in digits {
        let digit = char::from(*byte).to_digit(16)?;
        number = number * 16 + u64::from(digit);
    }
    Some(number)
}

// The float whose bit pattern sixteen hexadecimal digits write. The float and no `Pattern`: its
// readers reckon with it, and a NaN may be written by other bits than its one pattern.
#[tactic(auto, unfolding(crate::specs::Patterns::pattern_of))]
pub fn pattern_of(text: &str) -> Option<f64>
    ensures { result ≡ pattern_of text.now }
{
    if text.len() != 16 {
        return None;
    }
    // By a closure: a proof cannot name the library's function where it is handed over itself.
    number_of(text.as_bytes()).map(|bits| f64_from_bits_with_nan(bits))
}

// The bit pattern of a float; a NaN has the one pattern. The digits that its Display writes are read
// back as that float.
#[derive(Clone, Copy, PartialEq, Eq, Debug, Hash)]
pub struct Pattern {
    pub bits: u64,
}

impl From<f64> for Pattern {
    ghost from_gives = { λ x p. (p.bits ≡ to_bits binary64 x) × (pattern_of (hex_digits 16 p.bits) ≡ Some x) };

    fn from(x: f64) -> Pattern {
        Pattern {
            bits: f64_to_bits_with_nan(x),
        }
    }
}

// Sixteen hexadecimal digits.
impl fmt::Display for Pattern {
    ghost output = { λ p. Some (hex_digits 16 p.bits) };

    fn fmt<W: fmt::Write>(&self, f: &mut fmt::Formatter<W>) -> fmt::Result {
        let bits = self.bits;
        write!(f, "{bits:016x}")
    }
}
