// The root of a normal double: guessed in float arithmetic, and accepted where squares of whole
// numbers tell that it is the nearest double. A pattern is that of a double.
ghost use Rattle.std.specs.Prelude.{◌≡◌, ◌*◌, ◌^◌, ◌<◌, ◌≤◌, None, MatchOption, from_bits};
ghost use Rattle.std.specs.Float.{binary64};
ghost use Rattle.std.specs.Float as Floats;
ghost use Rattle.floats.specs.GuessedRoots.{Normal, even_digits, is_rounded_root, accepted_root, closer_inverse, root_by_inverse, guessed_root, guessed_digits};

use std::num::{f64_from_bits_with_nan, f64_to_bits_with_nan};

// The weight of the exponent field in a pattern, and of the leading digit, which a pattern omits.
const LEADING: u64 = 1 << 52;

// Less half the pattern of a number from 1 up to 4, the pattern of a number within 4 % of its
// inverse root.
const INVERSE_START: u64 = 0x5fe6_eb50_c7b5_37a9;

// The digits of a normal double, doubled where its exponent is odd: the double is this number times
// an even power of two.
fn even_digits(pattern: u64) -> u64
    ensures { result ≡ even_digits pattern }
{
    (pattern % LEADING + LEADING) * (2 - pattern / LEADING % 2)
}

// Whether `root` is the root of digits * 2^52, rounded to a whole number.
fn is_rounded_root(digits: u64, root: u64) -> bool
    ensures { result ≡ is_rounded_root (digits * 2 ^ 52) root }
{
    let n = u128::from(digits) * u128::from(LEADING);
    let root = u128::from(root);
    let square = root * root;
    square < n + root && n <= square + root
}

// The guess or a neighbour, whichever is the rounded root of digits * 2^52.
fn accepted_root(digits: u64, guess: u64) -> Option<u64>
    requires { (2 ^ 52 ≤ guess) × (guess < 2 ^ 53) }
    ensures { result ≡ accepted_root (digits * 2 ^ 52) guess }
{
    [guess, guess + 1, guess - 1]
        .iter()
        .copied()
        .find(|&root| is_rounded_root(digits, root))
}

// One step of Newton's rule from y towards the inverse of the root of 2 * half.
#[tactic(auto, unfolding(crate::specs::GuessedRoots::closer_inverse))]
fn closer_inverse(half: f64, y: f64) -> f64
    ensures { result ≡ closer_inverse half y }
{
    1.5 * y - half * y * (y * y)
}

// The root of a from a number y near to its inverse.
#[tactic(auto, unfolding(crate::specs::GuessedRoots::root_by_inverse))]
fn root_by_inverse(a: f64, y: f64) -> f64
    ensures { result ≡ root_by_inverse a y }
{
    let root = a * y;
    root + 0.5 * y * (a - root * root)
}

// A guess at the root of the double of a pattern, for one from 1 up to 4.
#[tactic(auto, unfolding(crate::specs::GuessedRoots::guessed_root))]
fn guessed_root(pattern: u64) -> f64
    requires { pattern < 2 ^ 63 }
    ensures { result ≡ guessed_root pattern }
{
    let a = f64_from_bits_with_nan(pattern);
    let half = 0.5 * a;
    let y = f64_from_bits_with_nan(INVERSE_START - pattern / 2);
    let y = closer_inverse(half, y);
    let y = closer_inverse(half, y);
    let y = closer_inverse(half, y);
    root_by_inverse(a, y)
}

// The digits of a guess at the root.
fn guessed_digits(pattern: u64) -> u64
    ensures value { result ≡ guessed_digits pattern }
    ensures least { 2 ^ 52 ≤ result }
    ensures bound { result < 2 ^ 53 }
{
    let near_one = (1024 - pattern / LEADING % 2) * LEADING + pattern % LEADING;
    f64_to_bits_with_nan(guessed_root(near_one)) % LEADING + LEADING
}

// The root of the double of a pattern; None where the guess is too far off.
pub(crate) fn checked_root(pattern: u64) -> Option<f64>
    requires { Normal pattern }
    ensures { MatchOption result (accepted_root (even_digits pattern * 2 ^ 52) (guessed_digits pattern) ≡ None) (λ root. root ≡ Floats.sqrt binary64 (from_bits binary64 pattern)) }
{
    let root = accepted_root(even_digits(pattern), guessed_digits(pattern))?;
    Some(f64_from_bits_with_nan((pattern / LEADING + 1021) / 2 * LEADING + root))
}
