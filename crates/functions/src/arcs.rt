// The inverse functions by their series: arc tangent, the angle of a point, area tangent.
ghost use Rattle.std.specs.Prelude.{◌≡◌, T};
ghost use Rattle.std.specs.Float.Ieee.{neg};
ghost use Rattle.floats.specs.Arithmetic.{◌⊖◌, ◌⊘◌, ◌≺◌, ◌≻◌, bits};
ghost use Rattle.functions.specs.AnnexF.{AnnexF};
ghost use Rattle.functions.specs.Arcs.{quarter_turn, arc_near, arc_to_one, arc_from_zero, arc_tangent_of, slant_of, slope_of, upright_of, level_of, angle_size_of, angle_of, area_tangent_of};

use floats::{copysign, polyval};
use std::f64::consts::PI;

// (-1)^k / (2k+1), k from 20 down to 0.
const ARC_TERMS: [f64; 21] = [
    1.0 / 41.0,
    -1.0 / 39.0,
    1.0 / 37.0,
    -1.0 / 35.0,
    1.0 / 33.0,
    -1.0 / 31.0,
    1.0 / 29.0,
    -1.0 / 27.0,
    1.0 / 25.0,
    -1.0 / 23.0,
    1.0 / 21.0,
    -1.0 / 19.0,
    1.0 / 17.0,
    -1.0 / 15.0,
    1.0 / 13.0,
    -1.0 / 11.0,
    1.0 / 9.0,
    -1.0 / 7.0,
    1.0 / 5.0,
    -1.0 / 3.0,
    1.0,
];

// 1 / (2k+1), k from 14 down to 0.
const AREA_TERMS: [f64; 15] = [
    1.0 / 29.0,
    1.0 / 27.0,
    1.0 / 25.0,
    1.0 / 23.0,
    1.0 / 21.0,
    1.0 / 19.0,
    1.0 / 17.0,
    1.0 / 15.0,
    1.0 / 13.0,
    1.0 / 11.0,
    1.0 / 9.0,
    1.0 / 7.0,
    1.0 / 5.0,
    1.0 / 3.0,
    1.0,
];

fn arc_near(u: f64) -> f64
    ensures { result ≡ arc_near u }
{
    u * polyval(&ARC_TERMS, u * u)
}

// The arc tangent of an x up to 1: from √2 - 1 on, about the eighth turn.
fn arc_to_one(x: f64) -> f64
    ensures { result ≡ arc_to_one x }
{
    if x > 0.4142135623730951 {
        PI / 4.0 + arc_near((x - 1.0) / (x + 1.0))
    } else {
        arc_near(x)
    }
}

// The arc tangent of an x that is not negative: above 1, by that of 1/x.
fn arc_from_zero(x: f64) -> f64
    ensures { result ≡ arc_from_zero x }
{
    if x > 1.0 {
        PI / 2.0 - arc_to_one(1.0 / x)
    } else {
        arc_to_one(x)
    }
}

#[tactic(auto, using(crate::proofs::Reciprocals::arc_mirrored, crate::proofs::Reciprocals::arc_above_one), unfolding(crate::specs::Arcs::arc_tangent_of))]
pub fn arc_tangent(x: f64) -> f64
    ensures value { result ≡ arc_tangent_of x }
    ensures mirrored { T (x ≺ bits 0) → arc_tangent_of x ≡ neg (arc_tangent_of (neg x)) }
    ensures above_one { T (x ≻ bits 0x3ff0000000000000) → arc_tangent_of x ≡ quarter_turn ⊖ arc_tangent_of (bits 0x3ff0000000000000 ⊘ x) }
{
    if x < 0.0 {
        -arc_from_zero(-x)
    } else {
        arc_from_zero(x)
    }
}

// The angle of a point in the first quarter, by the smaller of the two quotients.
fn slant(rise: f64, run: f64) -> f64
    ensures { result ≡ slant_of rise run }
{
    if rise <= run {
        arc_tangent(rise / run)
    } else {
        PI / 2.0 - arc_tangent(run / rise)
    }
}

// The size of the angle of (x, y), both finite and not zero.
fn slope(y: f64, x: f64) -> f64
    ensures { result ≡ slope_of y x }
{
    let v = slant(y.abs(), x.abs());
    if x < 0.0 { PI - v } else { v }
}

// The size of the angle of (x, y) for an infinite y.
fn upright(x: f64) -> f64
    ensures { result ≡ upright_of x }
{
    if !x.is_infinite() {
        PI / 2.0
    } else if x < 0.0 {
        3.0 * PI / 4.0
    } else {
        PI / 4.0
    }
}

// The angle along the axis of x: half a turn where x is negative, as -0 is.
fn level(x: f64) -> f64
    ensures { result ≡ level_of x }
{
    if x.is_nan() {
        return 0.0;
    }
    if x.is_sign_negative() { PI } else { 0.0 }
}

// The size of the angle of (x, y), zeros and infinities as the C standard has them.
fn angle_size(y: f64, x: f64) -> f64
    ensures { result ≡ angle_size_of y x }
{
    if y == 0.0 {
        level(x)
    } else if x == 0.0 {
        PI / 2.0
    } else if y.is_infinite() {
        upright(x)
    } else if x.is_infinite() {
        level(x)
    } else {
        slope(y, x)
    }
}

#[tactic(auto, using(crate::proofs::AnnexF::angle_by_standard))]
pub fn angle(y: f64, x: f64) -> f64
    ensures value { result ≡ angle_of y x }
    ensures standard { AnnexF angle_of }
{
    if x.is_nan() || y.is_nan() {
        return f64::NAN;
    }
    copysign(angle_size(y, x), y)
}

pub fn area_tangent(x: f64) -> f64
    ensures { result ≡ area_tangent_of x }
{
    x * polyval(&AREA_TERMS, x * x)
}
