// Over any function set: angles and directions in degrees, trigonometric sums, the astroid problem;
// and the expansions of the geodesic's integrals with their tables of coefficients.
#![tactic(auto)]

mod degrees;
mod expansions;
mod quartic;
mod sums;
mod tables;

ghost use Rattle.std.specs.Prelude.{◌≡◌};
ghost use Rattle.series.specs.Vectors.{norm_x, norm_y};
ghost use Rattle.series.specs.Eccentric.{eatanhe};

pub use degrees::{atan2d, sincosd};
pub use expansions::{_A1m1f, _A2m1f, _C1f, _C2f};
use functions::FunctionSet;
pub use quartic::astroid;
pub use sums::sin_cos_series;
pub use tables::{divisor, polyval_at, row};

// A two-vector divided by its length.
#[tactic(auto, unfolding(crate::specs::Vectors::norm_x, crate::specs::Vectors::norm_y))]
pub fn norm<F: FunctionSet>(set: &F, x: f64, y: f64) -> (f64, f64)
    ensures first { result.0 ≡ norm_x (F.funcs set.now) x y }
    ensures second { result.1 ≡ norm_y (F.funcs set.now) x y }
{
    let r = set.hypot(x, y);
    (x / r, y / r)
}

// e atanh(e x), es being the eccentricity e with the sign of the flattening: on a prolate ellipsoid
// e is imaginary, and the arc tangent stands for the area tangent.
#[tactic(auto, unfolding(crate::specs::Eccentric::eatanhe))]
pub fn eatanhe<F: FunctionSet>(set: &F, x: f64, es: f64) -> f64
    ensures { result ≡ eatanhe (F.funcs set.now) x es }
{
    if es > 0.0 {
        es * set.atanh(es * x)
    } else {
        -es * set.atan(es * x)
    }
}
