// Floats: the larger and the smaller of two, a copied sign, the error-free sum, the root, the
// remainder by 90 degrees, polynomials.
#![tactic(auto)]

mod guesses;

ghost use Rattle.std.specs.Prelude.{◌≡◌, ◌+◌, ◌%◌, ◌<◌, ◌≤◌, false, T};
ghost use Rattle.std.specs.Float.{binary64};
ghost use Rattle.std.specs.Float.Ieee.Positive.{positive};
ghost use Rattle.std.specs.Float as Floats;
ghost use Rattle.floats.specs.Arithmetic.{◌⊛◌};
ghost use Rattle.floats.specs.Choices.{larger_of, smaller_of, signed};
ghost use Rattle.floats.specs.Sums as Sums;
ghost use Rattle.floats.specs.Polynomials.{polynomial};
ghost use Rattle.floats.specs.Roots.{NearestRoot, root_of_other, units};
ghost use Rattle.floats.specs.Rests.{Size, IsPowerMultiple};
ghost use Rattle.floats.specs.Remainders.{ninety, folded_rest, folded_quotient, zero_signed, rest_by90, quotient_by90, NearestRemainder};

use guesses::checked_root;
use std::num::f64_to_bits_with_nan;

// The patterns of the least normal double and of infinity.
const LEAST_NORMAL: u64 = 1 << 52;

const INFINITY: u64 = 2047 << 52;

// The smaller and the larger of two: of +0 and -0 they are -0 and +0, and beside one NaN both are the
// other operand.
pub fn in_order(x: f64, y: f64) -> (f64, f64)
    ensures smaller { result.0 ≡ smaller_of x y }
    ensures larger { result.1 ≡ larger_of x y }
{
    if x.is_nan() {
        (y, y)
    } else if y.is_nan() {
        (x, x)
    } else if x == y {
        if x.is_sign_negative() { (x, y) } else { (y, x) }
    } else if x < y {
        (x, y)
    } else {
        (y, x)
    }
}

pub fn larger(x: f64, y: f64) -> f64
    ensures { result ≡ larger_of x y }
{
    let (_, larger) = in_order(x, y);
    larger
}

pub fn smaller(x: f64, y: f64) -> f64
    ensures { result ≡ smaller_of x y }
{
    let (smaller, _) = in_order(x, y);
    smaller
}

// The size of x with the sign of y; a NaN has the sign plus.
#[tactic(auto, using(crate::proofs::Choices::nan_not_negative))]
pub fn copysign(x: f64, y: f64) -> f64
    ensures { result ≡ signed x y }
{
    if y.is_nan() { x.abs() } else { x.copysign(y) }
}

// The rounded sum of u and v, and what the rounding left out.
pub fn sum(u: f64, v: f64) -> (f64, f64)
    ensures high { result.0 ≡ Sums.high u v }
    ensures low { result.1 ≡ Sums.low u v }
    ensures exact { Sums.Moderate u → Sums.Moderate v → Sums.ErrorFree u v }
{
    let s = u + v;
    let up = s - v;
    let vpp = s - up;
    let up = up - u;
    let vpp = vpp - v;
    let t = -(up + vpp);
    (s, t)
}

// The one double that is nearest to the root of x. Below zero and of NaN it is NaN; zeros and
// infinity are their own roots.
pub fn sqrt(x: f64) -> f64
    ensures value { result ≡ Floats.sqrt binary64 x }
    ensures nearest { T (positive x) → NearestRoot binary64 x result }
    ensures other { positive x ≡ false → result ≡ root_of_other x }
{
    let pattern = f64_to_bits_with_nan(x);
    if LEAST_NORMAL <= pattern
        && pattern < INFINITY
        && let Some(root) = checked_root(pattern)
    {
        return root;
    }
    x.sqrt()
}

// The size y, doubled as often as it stays at most r, which is not below it. Each sum is exact, and
// r - t is so where it comes near t.
// No struct says `Size`: its ghost fields are not known of a variable that a loop changes.
fn reach(r: f64, y: f64) -> f64
    requires whole { Size r }
    requires part { Size y }
    requires above { 0 < units binary64 y }
    requires reached { units binary64 y ≤ units binary64 r }
    ensures size { Size result }
    ensures multiple { IsPowerMultiple (units binary64 y) (units binary64 result) }
    ensures near { units binary64 r < units binary64 result + units binary64 result }
{
    let mut t = y;
    while t <= r - t {
        t = t + t;
    }
    t
}

// The size r less the size t where it reaches it, r being below twice t. The difference is exact.
fn lessened(r: f64, t: f64) -> f64
    requires whole { Size r }
    requires part { Size t }
    requires near { units binary64 r < units binary64 t + units binary64 t }
    ensures size { Size result }
    ensures units { units binary64 result ≡ units binary64 r % units binary64 t }
{
    if r < t { r } else { (r - t).abs() }
}

// What the size r leaves over after whole multiples of the size y, by long division in powers of two.
fn rest(r: f64, y: f64) -> f64
    requires whole { Size r }
    requires part { Size y }
    requires above { 0 < units binary64 y }
    ensures { result ≡ r ⊛ y }
{
    if r < y {
        return r;
    }
    let mut t = reach(r, y);
    let mut left = lessened(r, t);
    while y < t {
        t = t / 2.0;
        left = lessened(left, t);
    }
    left
}

// The remainder of x by y, which is what `%` answers: x less a whole number of times y, cut to the
// sign of x, exactly. It calls no function of the C library.
pub fn rem(x: f64, y: f64) -> f64
    ensures { result ≡ x ⊛ y }
{
    if !x.is_finite() || y.is_nan() || y == 0.0 {
        return f64::NAN;
    }
    if y.is_infinite() {
        return x;
    }
    let size = rest(x.abs(), y.abs());
    if x.is_sign_negative() { -size } else { size }
}

// An angle from 0 to 360 less the nearest multiple of 90, an even multiple where two are as near,
// and that multiple modulo 4. Each difference is exact.
// The quotient is a number, as it is in C's remquo.
fn folded(z: f64) -> (f64, u8)
    ensures rest { result.0 ≡ folded_rest z }
    ensures quotient { result.1 ≡ folded_quotient z }
    ensures bound { result.1 < 4 }
{
    if z <= 45.0 {
        (z, 0)
    } else if z < 135.0 {
        (z - 90.0, 1)
    } else if z <= 225.0 {
        (z - 180.0, 2)
    } else if z < 315.0 {
        (z - 270.0, 3)
    } else {
        (z - 360.0, 0)
    }
}

// r, or where it is a zero the zero with the sign of x.
pub fn zero_signed(x: f64, r: f64) -> f64
    ensures { result ≡ zero_signed x r }
{
    if r == 0.0 { copysign(0.0, x) } else { r }
}

// The remainder of x by 90 and the quotient modulo 4: with n the whole number nearest to x / 90,
// and of two the even one, the remainder is x - 90 n exactly, a zero with the sign of x. Where x
// is not finite they are NaN and 0.
#[tactic(auto, using(crate::proofs::Remainders::answered), unfolding(crate::specs::Remainders::rest_by90, crate::specs::Remainders::quotient_by90))]
pub fn remquo(x: f64) -> (f64, u8)
    ensures rest { result.0 ≡ rest_by90 x }
    ensures quotient { result.1 ≡ quotient_by90 x }
    ensures exact { T (Floats.float_is_finite x) → NearestRemainder binary64 x ninety result.0 result.1 }
{
    if !x.is_finite() {
        return (f64::NAN, 0);
    }
    let (size, quotient) = folded(rem(x.abs(), 360.0));
    if x.is_sign_negative() {
        (zero_signed(x, -size), (4 - quotient) % 4)
    } else {
        (zero_signed(x, size), quotient)
    }
}

// The polynomial with coefficients p, highest power first, at x; 0 where there are none.
#[tactic(auto, unfolding(crate::specs::Polynomials::horner, crate::specs::Polynomials::polynomial))]
pub fn polyval(p: &[f64], x: f64) -> f64
    ensures { result ≡ polynomial x p.now }
{
    let Some((first, rest)) = p.split_first() else {
        return 0.0;
    };
    let mut y = *first;
    for c in rest {
        y = y * x + *c;
    }
    y
}
