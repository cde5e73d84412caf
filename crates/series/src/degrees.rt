// Sine and cosine of an angle in degrees, and the angle of a point in degrees.
ghost use Rattle.std.specs.Prelude.{◌≡◌};
ghost use Rattle.series.specs.Degrees.{turned_sine, turned_cosine, sind, cosd, near, flat, steep, atan2d};

use floats::{remquo, zero_signed};
use functions::FunctionSet;

// Sine and cosine after n quarter turns, from those of the rest; n is the number that remquo answers.
fn turned(n: u8, s: f64, c: f64) -> (f64, f64)
    ensures sine { result.0 ≡ turned_sine n s c }
    ensures cosine { result.1 ≡ turned_cosine n s c }
{
    match n % 4 {
        0 => (s, c),
        1 => (c, -s),
        2 => (-s, -c),
        _ => (-c, s),
    }
}

// Sine and cosine of x degrees: exact at whole quarter turns, as only the rest within an eighth turn
// is given to the function set. A zero sine takes the sign of the angle.
#[tactic(auto, unfolding(crate::specs::Degrees::sind, crate::specs::Degrees::cosd))]
pub fn sincosd<F: FunctionSet>(set: &F, x: f64) -> (f64, f64)
    ensures sine { result.0 ≡ sind (F.funcs set.now) x }
    ensures cosine { result.1 ≡ cosd (F.funcs set.now) x }
{
    let (r, q) = remquo(x);
    let r = r.to_radians();
    let (sinx, cosx) = turned(q, set.sin(r), set.cos(r));
    (zero_signed(x, sinx), cosx + 0.0)
}

fn near_axis<F: FunctionSet>(set: &F, y: f64, x: f64) -> f64
    ensures { result ≡ near (F.funcs set.now) y x }
{
    set.atan2(y, x).to_degrees()
}

// The angle of a point that is nearer to the axis of x.
fn flat_angle<F: FunctionSet>(set: &F, y: f64, x: f64) -> f64
    ensures { result ≡ flat (F.funcs set.now) y x }
{
    if x < 0.0 {
        let half = if y >= 0.0 { 180.0 } else { -180.0 };
        half - near_axis(set, y, -x)
    } else {
        near_axis(set, y, x)
    }
}

// The angle of a point that is nearer to the axis of y; `+ -90.0` as the crate adds it.
fn steep_angle<F: FunctionSet>(set: &F, y: f64, x: f64) -> f64
    ensures { result ≡ steep (F.funcs set.now) y x }
{
    if y < 0.0 {
        near_axis(set, x, -y) + -90.0
    } else {
        90.0 - near_axis(set, x, y)
    }
}

// The angle of the point (x, y) in degrees.
#[tactic(auto, unfolding(crate::specs::Degrees::atan2d))]
pub fn atan2d<F: FunctionSet>(set: &F, y: f64, x: f64) -> f64
    ensures { result ≡ atan2d (F.funcs set.now) y x }
{
    if y.abs() > x.abs() {
        steep_angle(set, y, x)
    } else {
        flat_angle(set, y, x)
    }
}
