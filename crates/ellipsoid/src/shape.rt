// An ellipsoid of revolution and the constants that the inverse problem takes from its shape.
ghost use Rattle.std.specs.Prelude.{◌≡◌};
ghost use Rattle.ellipsoid.specs.Ellipsoids as Definitions;

use crate::tables::{a3_coefficients, c3_coefficients, c4_coefficients};
use floats::{larger, smaller, sqrt};
use functions::FunctionSet;
use geomath::sq;
use series::eatanhe;
use std::f64::consts::PI;

pub const WGS84_A: f64 = 6378137.0;

pub const WGS84_F: f64 = 1.0 / (298257223563.0 / 1000000000.0);

// The root of the least normal number.
pub const TINY: f64 = 1.4916681462400413e-154;

// One unit in the last place of 1.
pub const TOL0: f64 = 2.220446049250313e-16;

pub const TOL1: f64 = 200.0 * TOL0;

// The root of TOL0.
pub const TOL2: f64 = 1.4901161193847656e-8;

pub const TOLB: f64 = TOL0 * TOL2;

pub const XTHRESH: f64 = 1000.0 * TOL2;

// The half axes a and b, the flattening f and f1 = 1 - f, the squares e2 and ep2 of the two
// eccentricities, the third flattening n, the square c2 of the authalic radius, the arc etol2 up to
// which a line is short, and the coefficients of A3, C3 and C4 in powers of ε.
#[derive(Clone, Copy, Debug, PartialEq)]
pub struct Ellipsoid {
    pub a: f64,
    pub f: f64,
    pub f1: f64,
    pub e2: f64,
    pub ep2: f64,
    pub n: f64,
    pub b: f64,
    pub c2: f64,
    pub etol2: f64,
    pub A3x: [f64; 6],
    pub C3x: [f64; 15],
    pub C4x: [f64; 21],
}

// The eccentricity, negative on a prolate ellipsoid.
fn signed_eccentricity(f: f64) -> f64
    ensures { result ≡ Definitions.eccentricity f }
{
    let sign = if f < 0.0 { -1.0 } else { 1.0 };
    sign * sqrt((f * (2.0 - f)).abs())
}

fn area_ratio<F: FunctionSet>(set: &F, f: f64) -> f64
    ensures { result ≡ Definitions.area_ratio (F.funcs set.now) f }
{
    let e2 = f * (2.0 - f);
    if e2 == 0.0 {
        1.0
    } else {
        eatanhe(set, 1.0, signed_eccentricity(f)) / e2
    }
}

// The square of the radius of the sphere that has the same area.
#[tactic(auto, unfolding(crate::specs::Ellipsoids::c2_of))]
fn authalic<F: FunctionSet>(set: &F, a: f64, f: f64) -> f64
    ensures { result ≡ Definitions.c2_of (F.funcs set.now) a f }
{
    let b = a * (1.0 - f);
    (sq(a) + sq(b) * area_ratio(set, f)) / 2.0
}

// How short an arc has to be for the sphere of its mean latitude to serve.
#[tactic(auto, unfolding(crate::specs::Ellipsoids::etol2_of))]
fn short_arc(f: f64) -> f64
    ensures { result ≡ Definitions.etol2_of f }
{
    0.1 * TOL2 / sqrt(larger(f.abs(), 0.001) * smaller(1.0 - f / 2.0, 1.0) / 2.0)
}

impl Ellipsoid {
    // The ellipsoid of the equatorial radius a and the flattening f.
    #[tactic(auto, unfolding(crate::specs::Ellipsoids::ellipsoid))]
    pub fn new<F: FunctionSet>(set: &F, a: f64, f: f64) -> Ellipsoid
        ensures { result ≡ Definitions.ellipsoid (F.funcs set.now) a f }
    {
        let n = f / (2.0 - f);
        let A3x = a3_coefficients(n);
        let C3x = c3_coefficients(n);
        let C4x = c4_coefficients(n);
        let f1 = 1.0 - f;
        let e2 = f * (2.0 - f);
        Ellipsoid {
            a,
            f,
            f1,
            e2,
            ep2: e2 / sq(f1),
            n,
            b: a * f1,
            c2: authalic(set, a, f),
            etol2: short_arc(f),
            A3x,
            C3x,
            C4x,
        }
    }

    // The area of the whole ellipsoid.
    #[tactic(auto, unfolding(crate::specs::Ellipsoids::whole_of))]
    pub fn area(&self) -> f64
        ensures { result ≡ Definitions.whole_of self.now }
    {
        self.c2 * 4.0 * PI
    }
}
