// Angles in degrees: rounding near zero, reduction, the difference of longitudes; and the sum
// and the polynomial that go with them.
#![tactic(auto)]

ghost use Rattle.std.specs.Prelude.{◌≡◌, true};
ghost use Rattle.std.specs.Float.{float_is_finite};
ghost use Rattle.geomath.specs.Exact.{Normalized, Difference};
ghost use Rattle.geomath.specs.Angles.{square, ang_round, left_over, remainder_of, ang_normalize, lat_fix, ang_diff, ang_diff_error, accepts};

use floats::rem;
pub use floats::{polyval, sum};

// The square of x.
pub fn sq(x: f64) -> f64
    ensures { result ≡ square x }
{
    x * x
}

// An angle rounded so that small values underflow to 0: below 1/16 of a degree the smallest gap
// is 2^-57, which is 0.7 pm on the Earth. Either zero gives +0.
pub fn ang_round(x: f64) -> f64
    ensures { result ≡ ang_round x }
{
    let z = 1.0 / 16.0;
    let size = x.abs();
    let y = if size < z { z - (z - size) } else { size };
    if x == 0.0 {
        0.0
    } else if x < 0.0 {
        -y
    } else {
        y
    }
}

// What is left of a finite x after whole multiples of y, a zero with its sign; NaN otherwise.
fn left_over(x: f64, y: f64) -> f64
    ensures { result ≡ left_over x y }
{
    if x == 0.0 {
        x
    } else if x.is_finite() {
        rem(x, y)
    } else {
        f64::NAN
    }
}

// The remainder of x by y in the range [-y/2, y/2].
pub fn remainder(x: f64, y: f64) -> f64
    ensures { result ≡ remainder_of x y }
{
    let z = left_over(x, y);
    if z < -y / 2.0 {
        z + y
    } else if z < y / 2.0 {
        z
    } else {
        z - y
    }
}

// An angle reduced to (-180, 180].
#[tactic(auto, using(crate::proofs::Normalized::normalized), unfolding(crate::specs::Angles::ang_normalize))]
pub fn ang_normalize(x: f64) -> f64
    ensures value { result ≡ ang_normalize x }
    ensures reduced { float_is_finite x ≡ true → Normalized x }
{
    let y = remainder(x, 360.0);
    if y == -180.0 { 180.0 } else { y }
}

// A latitude, or NaN where it lies outside [-90, 90], as the crate answers.
pub fn lat_fix(x: f64) -> f64
    ensures { result ≡ lat_fix x }
{
    if x.abs() > 90.0 { f64::NAN } else { x }
}

// The difference y - x reduced to [-180, 180]: rounded, and what the rounding left out.
#[tactic(auto, unfolding(crate::specs::Angles::ang_diff, crate::specs::Angles::ang_diff_error))]
pub fn ang_diff(x: f64, y: f64) -> (f64, f64)
    ensures high { result.0 ≡ ang_diff x y }
    ensures low { result.1 ≡ ang_diff_error x y }
    ensures exact { float_is_finite x ≡ true → float_is_finite y ≡ true → Difference x y }
{
    let (d, t) = sum(ang_normalize(-x), ang_normalize(y));
    let d = ang_normalize(d);
    let start = if d == 180.0 && t > 0.0 { -180.0 } else { d };
    sum(start, t)
}

// Whether a point is accepted: a latitude from -90 to 90 and a finite longitude; as two numbers, since
// the structs of a point stand in the crates above.
#[tactic(auto, using(floats::proofs::Ranges::at_most))]
pub fn accepted(lat: f64, lon: f64) -> bool
    ensures { result ≡ accepts lat lon }
{
    (-90.0..=90.0).contains(&lat) && lon.is_finite()
}
