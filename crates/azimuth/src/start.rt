// The starting point of the inverse problem: the azimuth at the first point from the great circle,
// which already solves it for a short line, or from the astroid problem near the antipode.
ghost use Rattle.std.specs.Prelude.{◌≡◌};
ghost use Rattle.azimuth.specs.Problems.{of_problem};
ghost use Rattle.azimuth.specs.Start as Definitions;

use crate::problem::Problem;
use ellipsoid::arcs::{Arc, Azimuth};
use ellipsoid::capability::REDUCEDLENGTH;
use ellipsoid::expansions::expansion_parameter;
use ellipsoid::lengths::Lengths;
use ellipsoid::shape::{Ellipsoid, TOL1, XTHRESH};
use floats::{larger, smaller, sqrt};
use functions::FunctionSet;
use geomath::sq;
use series::astroid;
use std::f64::consts::PI;

// The spherical longitude difference ω12 by its sine and cosine, and for a short line dn at the mean
// latitude.
#[derive(Clone, Copy, Debug, PartialEq)]
pub struct Turn {
    pub dnm: Option<f64>,
    pub somg12: f64,
    pub comg12: f64,
}

// The great circle to the second point: its azimuth at the first point times sin σ12, and sine and
// cosine of the arc σ12.
#[derive(Clone, Copy, Debug, PartialEq)]
pub struct GreatCircle {
    pub turn: Turn,
    pub alp1: Azimuth,
    pub ssig12: f64,
    pub csig12: f64,
}

// The second point as seen from the antipode of the first, in units in which the astroid has radius
// 1, and the unit of longitude.
#[derive(Clone, Copy, Debug, PartialEq)]
pub struct Scaled {
    pub x: f64,
    pub y: f64,
    pub lamscale: f64,
}

// The azimuth at the first point, and for a short line its arc σ12, the azimuth at the second point,
// and dn at the mean latitude. For another line σ12 is -1, and the azimuth at the second point NaN, as
// `_InverseStart` of the crate answers.
#[derive(Clone, Copy, Debug, PartialEq)]
pub struct Start {
    pub sig12: f64,
    pub alp1: Azimuth,
    pub alp2: Azimuth,
    pub dnm: f64,
}

// An azimuth of length 1; where its sine is not positive, due east.
#[tactic(auto, unfolding(crate::specs::Start::settled, ellipsoid::specs::Arcs::unit))]
fn settle<F: FunctionSet>(set: &F, z: Azimuth) -> Azimuth
    ensures { result ≡ Definitions.settled (F.funcs set.now) z }
{
    if z.salp > 0.0 || z.salp.is_nan() {
        z.unit(set)
    } else {
        Azimuth {
            salp: 1.0,
            calp: 0.0,
        }
    }
}

impl Turn {
    // 1 - cos ω12.
    fn versine(&self) -> f64
        ensures { result ≡ Definitions.versine self.now }
    {
        if self.comg12 >= 0.0 {
            sq(self.somg12) / (1.0 + self.comg12)
        } else {
            1.0 - self.comg12
        }
    }
}

impl Scaled {
    // Whether the azimuth is that on the axis within the astroid.
    fn is_on_axis(&self) -> bool
        ensures { result ≡ Definitions.on_axis self.now }
    {
        self.y > -TOL1 && self.x > -1.0 - XTHRESH
    }

    // The azimuth on the axis within the astroid.
    #[tactic(auto, unfolding(crate::specs::Start::axis_azimuth))]
    fn axis_azimuth(&self, shape: &Ellipsoid) -> Azimuth
        ensures { result ≡ Definitions.axis_azimuth shape.now self.now }
    {
        if shape.f >= 0.0 {
            let salp = smaller(-self.x, 1.0);
            Azimuth {
                salp,
                calp: -sqrt(1.0 - sq(salp)),
            }
        } else {
            let calp = larger(self.x, if self.x > -TOL1 { 0.0 } else { -1.0 });
            Azimuth {
                salp: sqrt(1.0 - sq(calp)),
                calp,
            }
        }
    }

    // ω12 of the antipodal point, from the astroid's root k.
    fn omega(&self, shape: &Ellipsoid, k: f64) -> f64
        ensures { result ≡ Definitions.astroid_omega shape.now self.now k }
    {
        let part = if shape.f >= 0.0 {
            -self.x * k / (1.0 + k)
        } else {
            -self.y * (1.0 + k) / k
        };
        self.lamscale * part
    }
}

impl<F: FunctionSet> Problem<'_, F> {
    // Whether the points are so near each other that their mean latitude stands for both.
    #[tactic(auto, unfolding(crate::specs::Start::short_line))]
    fn is_short_line(&self) -> bool
        ensures { result ≡ Definitions.short_line self.now.ends self.now.difference }
    {
        self.ends.cos_difference() >= 0.0
            && self.ends.sin_difference() < 0.5
            && self.ends.cbet2 * self.difference.lam12 < 0.5
    }

    #[tactic(auto, unfolding(crate::specs::Start::dn_mean))]
    fn dn_mean(&self) -> f64
        ensures { result ≡ Definitions.dn_mean self.now.shape.now self.now.ends }
    {
        let e = &self.ends;
        let sbetm2 = sq(e.sbet1 + e.sbet2);
        sqrt(1.0 + self.shape.ep2 * (sbetm2 / (sbetm2 + sq(e.cbet1 + e.cbet2))))
    }

    #[tactic(auto, unfolding(crate::specs::Start::turn_of))]
    fn turn(&self) -> Turn
        ensures { result ≡ of_problem F.funcs self.now Definitions.turn_of }
    {
        let d = &self.difference;
        if self.is_short_line() {
            let dnm = self.dn_mean();
            let omg12 = d.lam12 / (self.shape.f1 * dnm);
            Turn {
                dnm: Some(dnm),
                somg12: self.set.sin(omg12),
                comg12: self.set.cos(omg12),
            }
        } else {
            Turn {
                dnm: None,
                somg12: d.slam12,
                comg12: d.clam12,
            }
        }
    }

    // cos α1 sin σ12 for an ω12 beyond a quarter turn.
    #[tactic(auto, unfolding(crate::specs::Start::beyond_quarter))]
    fn beyond_quarter(&self, somg12: f64, comg12: f64) -> f64
        ensures { result ≡ Definitions.beyond_quarter self.now.ends somg12 comg12 }
    {
        let e = &self.ends;
        e.sin_sum() - e.cbet2 * e.sbet1 * sq(somg12) / (1.0 - comg12)
    }

    // cos α1 sin σ12 for an ω12 up to a quarter turn.
    #[tactic(auto, unfolding(crate::specs::Start::within_quarter))]
    fn within_quarter(&self, somg12: f64, comg12: f64) -> f64
        ensures { result ≡ Definitions.within_quarter self.now.ends somg12 comg12 }
    {
        let e = &self.ends;
        e.sin_difference() + e.cbet2 * e.sbet1 * sq(somg12) / (1.0 + comg12)
    }

    // The great circle's azimuth at the first point, times sin σ12.
    #[tactic(auto, unfolding(crate::specs::Start::departing))]
    fn departure(&self, t: &Turn) -> Azimuth
        ensures { result ≡ Definitions.departing self.now.ends t.now }
    {
        let calp = if t.comg12 >= 0.0 {
            self.within_quarter(t.somg12, t.comg12)
        } else {
            self.beyond_quarter(t.somg12, t.comg12)
        };
        Azimuth {
            salp: self.ends.cbet2 * t.somg12,
            calp,
        }
    }

    // The great circle's azimuth at the second point.
    #[tactic(auto, unfolding(crate::specs::Start::arriving, ellipsoid::specs::Arcs::unit))]
    fn arrival_at(&self, t: &Turn) -> Azimuth
        ensures { result ≡ Definitions.arriving (F.funcs self.now.set.now) self.now.ends t.now }
    {
        let e = &self.ends;
        let along = Azimuth {
            salp: e.cbet1 * t.somg12,
            calp: e.sin_difference() - e.cbet1 * e.sbet2 * t.versine(),
        };
        along.unit(self.set)
    }

    // The sine of the great circle's arc σ12, from the azimuth times that.
    fn sin_arc(&self, z: Azimuth) -> f64
        ensures { result ≡ Definitions.sin_arc (F.funcs self.now.set.now) z }
    {
        self.set.hypot(z.salp, z.calp)
    }

    // The cosine of the great circle's arc σ12.
    #[tactic(auto, unfolding(crate::specs::Start::cos_arc))]
    fn cos_arc(&self, t: &Turn) -> f64
        ensures { result ≡ Definitions.cos_arc self.now.ends t.now }
    {
        let e = &self.ends;
        e.sbet1 * e.sbet2 + e.cbet1 * e.cbet2 * t.comg12
    }

    #[tactic(auto, unfolding(crate::specs::Start::great_circle, crate::specs::Start::great_circle_of))]
    fn great_circle(&self) -> GreatCircle
        ensures { result ≡ of_problem F.funcs self.now Definitions.great_circle }
    {
        let turn = self.turn();
        let alp1 = self.departure(&turn);
        GreatCircle {
            turn,
            alp1,
            ssig12: self.sin_arc(alp1),
            csig12: self.cos_arc(&turn),
        }
    }

    // The longitude of the second point from the antipode of the first.
    fn from_antipode(&self) -> f64
        ensures { result ≡ Definitions.from_antipode (F.funcs self.now.set.now) self.now.difference }
    {
        self.set
            .atan2(-self.difference.slam12, -self.difference.clam12)
    }

    // On an oblate ellipsoid x goes by the longitude and y by the latitude.
    #[tactic(auto, unfolding(crate::specs::Start::oblate))]
    fn oblate_scaled(&self) -> Scaled
        ensures { result ≡ of_problem F.funcs self.now Definitions.oblate }
    {
        let e = &self.ends;
        let eps = expansion_parameter(sq(e.sbet1) * self.shape.ep2);
        let lamscale = self.shape.f * e.cbet1 * self.shape._A3f(eps) * PI;
        Scaled {
            x: self.from_antipode() / lamscale,
            y: e.sin_sum() / (lamscale * e.cbet1),
            lamscale,
        }
    }

    // The reduced length of the meridian arc over the pole to the second point's latitude.
    #[tactic(auto, unfolding(crate::specs::Start::meridian_lengths))]
    fn meridian_lengths(&self) -> Lengths
        ensures { result ≡ Definitions.meridian_lengths (F.funcs self.now.set.now) self.now.shape.now self.now.ends }
    {
        let e = &self.ends;
        let bet12a = self.set.atan2(e.sin_sum(), e.cos_sum());
        let arc = Arc {
            sig12: PI + bet12a,
            ssig1: e.sbet1,
            csig1: -e.cbet1,
            ssig2: e.sbet2,
            csig2: e.cbet2,
        };
        self.shape._Lengths(self.shape.n, &arc, e, REDUCEDLENGTH)
    }

    #[tactic(auto, unfolding(crate::specs::Start::prolate_at))]
    fn prolate_at(&self, x: f64) -> Scaled
        ensures { result ≡ of_problem F.funcs self.now Definitions.prolate_at x }
    {
        let e = &self.ends;
        let betscale = if x < -0.01 {
            e.sin_sum() / x
        } else {
            -self.shape.f * sq(e.cbet1) * PI
        };
        let lamscale = betscale / e.cbet1;
        Scaled {
            x,
            y: self.from_antipode() / lamscale,
            lamscale,
        }
    }

    // On a prolate ellipsoid x goes by the latitude and y by the longitude.
    #[tactic(auto, unfolding(crate::specs::Start::prolate))]
    fn prolate_scaled(&self) -> Scaled
        ensures { result ≡ of_problem F.funcs self.now Definitions.prolate }
    {
        let l = self.meridian_lengths();
        let x = -1.0 + l.m12b / (self.ends.cbet1 * self.ends.cbet2 * l.m0 * PI);
        self.prolate_at(x)
    }

    #[tactic(auto, unfolding(crate::specs::Start::scaled_of))]
    fn scaled(&self) -> Scaled
        ensures { result ≡ of_problem F.funcs self.now Definitions.scaled_of }
    {
        if self.shape.f >= 0.0 {
            self.oblate_scaled()
        } else {
            self.prolate_scaled()
        }
    }

    #[tactic(auto, unfolding(crate::specs::Start::omega_azimuth))]
    fn omega_azimuth(&self, omg12a: f64) -> Azimuth
        ensures { result ≡ Definitions.omega_azimuth (F.funcs self.now.set.now) self.now.ends omg12a }
    {
        let somg12 = self.set.sin(omg12a);
        let comg12 = -self.set.cos(omg12a);
        Azimuth {
            salp: self.ends.cbet2 * somg12,
            calp: self.beyond_quarter(somg12, comg12),
        }
    }

    // The azimuth at the first point for a second point near the antipode.
    #[tactic(auto, unfolding(crate::specs::Start::antipodal))]
    fn antipodal_azimuth(&self, s: &Scaled) -> Azimuth
        ensures { result ≡ Definitions.antipodal (F.funcs self.now.set.now) self.now.shape.now self.now.ends s.now }
    {
        if s.is_on_axis() {
            return s.axis_azimuth(self.shape);
        }
        let k = astroid(self.set, s.x, s.y);
        self.omega_azimuth(s.omega(self.shape, k))
    }

    // Whether the second point is so far from the antipode that the great circle's azimuth serves.
    #[tactic(auto, unfolding(crate::specs::Start::far_from_antipode))]
    fn is_far(&self, ssig12: f64, csig12: f64) -> bool
        ensures { result ≡ Definitions.far_from_antipode self.now.shape.now self.now.ends ssig12 csig12 }
    {
        let n = self.shape.n.abs();
        n > 0.1 || csig12 >= 0.0 || ssig12 >= 6.0 * n * PI * sq(self.ends.cbet1)
    }

    // The azimuth at the first point for a line that is not short.
    #[tactic(auto, unfolding(crate::specs::Start::long_azimuth))]
    fn long_azimuth(&self, c: &GreatCircle) -> Azimuth
        ensures { result ≡ of_problem F.funcs self.now Definitions.long_azimuth c.now }
    {
        if self.is_far(c.ssig12, c.csig12) {
            c.alp1
        } else {
            self.antipodal_azimuth(&self.scaled())
        }
    }

    #[tactic(auto, unfolding(crate::specs::Start::long_start))]
    fn long_start(&self, c: &GreatCircle, dnm: f64) -> Start
        ensures { result ≡ of_problem F.funcs self.now Definitions.long_start c.now dnm }
    {
        Start {
            sig12: -1.0,
            alp1: settle(self.set, self.long_azimuth(c)),
            alp2: Azimuth {
                salp: f64::NAN,
                calp: f64::NAN,
            },
            dnm,
        }
    }

    #[tactic(auto, unfolding(crate::specs::Start::short_start))]
    fn short_start(&self, c: &GreatCircle, dnm: f64) -> Start
        ensures { result ≡ Definitions.short_start (F.funcs self.now.set.now) self.now.ends c.now dnm }
    {
        Start {
            sig12: self.set.atan2(c.ssig12, c.csig12),
            alp1: settle(self.set, c.alp1),
            alp2: self.arrival_at(&c.turn),
            dnm,
        }
    }

    // The start of the inverse problem; dnm is NaN where ω12 was taken without it, as in the crate.
    #[tactic(auto, unfolding(crate::specs::Start::inverse_start, crate::specs::Start::start_along))]
    pub fn _InverseStart(&self) -> Start
        ensures { result ≡ of_problem F.funcs self.now Definitions.inverse_start }
    {
        let c = self.great_circle();
        match c.turn.dnm {
            Some(dnm) if c.ssig12 < self.shape.etol2 => self.short_start(&c, dnm),
            Some(dnm) => self.long_start(&c, dnm),
            None => self.long_start(&c, f64::NAN),
        }
    }
}
