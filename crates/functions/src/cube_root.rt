// The cube root: the size is brought between 1 and 8, and Newton's rule is taken five times.
ghost use Rattle.std.specs.Prelude.{◌≡◌, suc, ◌+◌, ◌-◌, ◌*◌, ◌^◌, ◌<◌, ◌≤◌, true, false};
ghost use Rattle.std.specs.Float.{float_is_finite, is_sign_negative};
ghost use Rattle.functions.specs.CubeRoot.{units_of, place_of, octave_of, power_of_two, eight_to, two_to, improved, root_near, root_of_size, cube_root_of};

use floats::copysign;
use std::num::{f64_from_bits_with_nan, f64_to_bits_with_nan};

// The place of the leading digit of a float, counted from that of 2^-1074: below 2^-1022 it is found
// among the digits of the pattern, from there on the exponent's field tells it.
fn place(pattern: u64) -> u64
    ensures { result ≡ place_of pattern }
{
    let field = pattern >> 52;
    if field == 0 {
        u64::from(pattern.checked_ilog2().unwrap_or(0))
    } else {
        field + 51
    }
}

// The exponent e with 8^e ≤ x < 8^(e+1), as e + 358.
fn octave(x: f64) -> u64
    requires finite { float_is_finite x ≡ true }
    requires plus { is_sign_negative x ≡ false }
    ensures value { result ≡ octave_of x }
    ensures bound { result < 700 }
    ensures reaches { 0 < units_of x → 8 ^ result ≤ units_of x }
    ensures ends { units_of x < 8 ^ suc result }
{
    place(f64_to_bits_with_nan(x)) / 3
}

// The float 2^(j - 1074).
fn power_of_two(j: u64) -> f64
    requires { j < 2098 }
    ensures { result ≡ power_of_two j }
{
    if j < 52 {
        f64_from_bits_with_nan(1 << j)
    } else {
        f64_from_bits_with_nan((j - 51) << 52)
    }
}

// One step of Newton's rule from y towards the cube root of t.
fn improve(t: f64, y: f64) -> f64
    ensures { result ≡ improved t y }
{
    (2.0 * y + t / (y * y)) / 3.0
}

// The cube root of a t from 1 to 8.
fn root_near(t: f64) -> f64
    ensures { result ≡ root_near t }
{
    let mut y = 1.0 + (t - 1.0) / 7.0;
    for _ in 0..5u32 {
        y = improve(t, y);
    }
    y
}

// The cube root of a positive x.
fn root_of_size(x: f64) -> f64
    requires finite { float_is_finite x ≡ true }
    requires plus { is_sign_negative x ≡ false }
    ensures { result ≡ root_of_size x }
{
    let k = octave(x);
    let t = x / power_of_two(3 * k);
    root_near(t) * power_of_two(k + 716)
}

pub fn cube_root(x: f64) -> f64
    ensures { result ≡ cube_root_of x }
{
    if !x.is_finite() || x == 0.0 {
        return x;
    }
    copysign(root_of_size(x.abs()), x)
}
