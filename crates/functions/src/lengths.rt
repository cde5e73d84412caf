// The hypotenuse by the longer side and the ratio of the two.
ghost use Rattle.std.specs.Prelude.{◌≡◌};
ghost use Rattle.functions.specs.Lengths.{across_of, hypotenuse_of};

use floats::{in_order, sqrt};

// The hypotenuse over a longer and a shorter side, neither negative.
fn across(long: f64, short: f64) -> f64
    ensures { result ≡ across_of long short }
{
    if long == 0.0 {
        return 0.0;
    }
    let ratio = short / long;
    long * sqrt(1.0 + ratio * ratio)
}

pub fn hypotenuse(x: f64, y: f64) -> f64
    ensures { result ≡ hypotenuse_of x y }
{
    if x.is_infinite() || y.is_infinite() {
        return f64::INFINITY;
    }
    if x.is_nan() || y.is_nan() {
        return f64::NAN;
    }
    let (short, long) = in_order(x.abs(), y.abs());
    across(long, short)
}
