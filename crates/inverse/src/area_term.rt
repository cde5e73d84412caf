// The area between a geodesic and the equator.
ghost use Rattle.std.specs.Prelude.{◌≡◌};
ghost use Rattle.azimuth.specs.Problems.{of_problem};
ghost use Rattle.inverse.specs.AreaTerm as Definitions;

use crate::paths::{Path, Way};
use azimuth::problem::Problem;
use ellipsoid::expansions::expansion_parameter;
use ellipsoid::shape::TINY;
use functions::FunctionSet;
use geomath::sq;
use series::{norm, sin_cos_series};
use std::f64::consts::FRAC_1_SQRT_2;

// The area integral I4 at one end, from the coefficients C4.
#[tactic(auto, unfolding(crate::specs::AreaTerm::integral4))]
fn integral4<F: FunctionSet>(set: &F, c4: &[f64], sbet: f64, cbet: f64, calp: f64) -> f64
    ensures { result ≡ Definitions.integral4 (F.funcs set.now) c4.now sbet cbet calp }
{
    let (ssig, csig) = norm(set, sbet, calp * cbet);
    sin_cos_series(false, ssig, csig, c4)
}

// Sine and cosine of ω12, where it is λ12 less domg12.
#[tactic(auto, unfolding(crate::specs::AreaTerm::sin_less, crate::specs::AreaTerm::cos_less))]
fn omega_less<F: FunctionSet>(problem: &Problem<'_, F>, domg12: f64) -> (f64, f64)
    ensures sine { result.0 ≡ Definitions.sin_less (F.funcs problem.now.set.now) problem.now.difference domg12 }
    ensures cosine { result.1 ≡ Definitions.cos_less (F.funcs problem.now.set.now) problem.now.difference domg12 }
{
    let d = problem.difference;
    let sdomg12 = problem.set.sin(domg12);
    let cdomg12 = problem.set.cos(domg12);
    (
        d.slam12 * cdomg12 - d.clam12 * sdomg12,
        d.clam12 * cdomg12 + d.slam12 * sdomg12,
    )
}

// α2 - α1 by half angles, for a line that is not too long.
#[tactic(auto, unfolding(crate::specs::AreaTerm::turn_by_omega))]
fn turn_by_omega<F: FunctionSet>(problem: &Problem<'_, F>, somg12: f64, comg12: f64) -> f64
    ensures { result ≡ Definitions.turn_by_omega (F.funcs problem.now.set.now) problem.now.ends somg12 comg12 }
{
    let e = problem.ends;
    let domg12 = 1.0 + comg12;
    let dbet1 = 1.0 + e.cbet1;
    let dbet2 = 1.0 + e.cbet2;
    let sine = somg12 * (e.sbet1 * dbet2 + e.sbet2 * dbet1);
    let cosine = domg12 * (e.sbet1 * e.sbet2 + dbet1 * dbet2);
    2.0 * problem.set.atan2(sine, cosine)
}

impl Path {
    // The ellipsoid's term for an azimuth at the node that is neither along the equator nor a meridian.
    #[tactic(auto, unfolding(crate::specs::AreaTerm::excess_at))]
    fn excess_at<F: FunctionSet>(&self, problem: &Problem<'_, F>, salp0: f64, calp0: f64) -> f64
        ensures { result ≡ Definitions.excess_at (F.funcs problem.now.set.now) problem.now.shape.now problem.now.ends self.now salp0 calp0 }
    {
        let shape = problem.shape;
        let e = problem.ends;
        let eps = expansion_parameter(sq(calp0) * shape.ep2);
        let A4 = sq(shape.a) * calp0 * salp0 * shape.e2;
        let C4a = shape._C4f(eps);
        let B41 = integral4(problem.set, &C4a, e.sbet1, e.cbet1, self.alp1.calp);
        let B42 = integral4(problem.set, &C4a, e.sbet2, e.cbet2, self.alp2.calp);
        A4 * (B42 - B41)
    }

    // The term by which the ellipsoid differs from the authalic sphere.
    #[tactic(auto, unfolding(crate::specs::AreaTerm::excess))]
    fn excess<F: FunctionSet>(&self, problem: &Problem<'_, F>) -> f64
        ensures { result ≡ Definitions.excess (F.funcs problem.now.set.now) problem.now.shape.now problem.now.ends self.now }
    {
        let salp0 = self.alp1.salp * problem.ends.cbet1;
        let calp0 = problem
            .set
            .hypot(self.alp1.calp, self.alp1.salp * problem.ends.sbet1);
        if calp0 == 0.0 || salp0 == 0.0 {
            return 0.0;
        }
        self.excess_at(problem, salp0, calp0)
    }

    // α2 - α1 from the azimuths; a half turn has the sign that it has on the way over the pole.
    #[tactic(auto, unfolding(crate::specs::AreaTerm::turn_by_azimuths))]
    fn turn_by_azimuths<F: FunctionSet>(&self, set: &F) -> f64
        ensures { result ≡ Definitions.turn_by_azimuths (F.funcs set.now) self.now.alp1 self.now.alp2 }
    {
        let (alp1, alp2) = (self.alp1, self.alp2);
        let salp12 = alp2.salp * alp1.calp - alp2.calp * alp1.salp;
        let calp12 = alp2.calp * alp1.calp + alp2.salp * alp1.salp;
        if salp12 == 0.0 && calp12 < 0.0 {
            set.atan2(TINY * alp1.calp, -1.0)
        } else {
            set.atan2(salp12, calp12)
        }
    }

    // α2 - α1.
    #[tactic(auto, unfolding(crate::specs::AreaTerm::turn_off))]
    fn turn<F: FunctionSet>(&self, problem: &Problem<'_, F>) -> f64
        ensures { result ≡ Definitions.turn_off (F.funcs problem.now.set.now) problem.now.ends problem.now.difference self.now }
    {
        let set = problem.set;
        let (somg12, comg12) = match self.way {
            Way::Meridian => return self.turn_by_azimuths(set),
            Way::Direct { omg12 } => (set.sin(omg12), set.cos(omg12)),
            Way::Newton { domg12, .. } => omega_less(problem, domg12),
        };
        if comg12 > -FRAC_1_SQRT_2 && problem.ends.sbet2 - problem.ends.sbet1 < 1.75 {
            turn_by_omega(problem, somg12, comg12)
        } else {
            self.turn_by_azimuths(set)
        }
    }

    // The area in canonical form.
    #[tactic(auto, unfolding(crate::specs::AreaTerm::area_of))]
    pub fn area<F: FunctionSet>(&self, problem: &Problem<'_, F>) -> f64
        ensures { result ≡ of_problem F.funcs problem.now Definitions.area_of self.now }
    {
        self.excess(problem) + problem.shape.c2 * self.turn(problem)
    }
}
