// The hybrid problem: the longitude that a geodesic from the first point at a given azimuth gains on
// its way to the second point's latitude.
ghost use Rattle.std.specs.Prelude.{◌≡◌};
ghost use Rattle.azimuth.specs.Problems.{of_problem};
ghost use Rattle.azimuth.specs.Lambda as Definitions;

use crate::problem::Problem;
use ellipsoid::arcs::{Arc, Azimuth};
use ellipsoid::capability::REDUCEDLENGTH;
use ellipsoid::expansions::expansion_parameter;
use ellipsoid::shape::TINY;
use floats::{larger, sqrt};
use functions::FunctionSet;
use geomath::sq;
use series::norm;

// How far the longitude is from the wanted one and its derivative by the azimuth; the azimuth at the
// second point, the arc, ε, and λ12 - ω12.
#[derive(Clone, Copy, Debug, Default, PartialEq)]
pub struct Lambda {
    pub lam12: f64,
    pub alp2: Azimuth,
    pub arc: Arc,
    pub eps: f64,
    pub domg12: f64,
    pub dlam12: f64,
}

// A geodesic from the first point to the second one's latitude: its azimuths at both ends, the arc
// between them, and ε.
#[derive(Clone, Copy, Debug, PartialEq)]
pub struct Trial {
    pub alp1: Azimuth,
    pub alp2: Azimuth,
    pub arc: Arc,
    pub eps: f64,
}

impl<F: FunctionSet> Problem<'_, F> {
    // A geodesic along the equator is turned a little, so that its node is determined.
    #[tactic(auto, unfolding(crate::specs::Lambda::steered))]
    fn steer(&self, z: Azimuth) -> Azimuth
        ensures { result ≡ Definitions.steered self.now.ends z }
    {
        if self.ends.sbet1 == 0.0 && z.calp == 0.0 {
            Azimuth { calp: -TINY, ..z }
        } else {
            z
        }
    }

    #[tactic(auto, unfolding(crate::specs::Lambda::epsilon_of))]
    fn epsilon(&self, z: Azimuth) -> f64
        ensures { result ≡ Definitions.epsilon_of (F.funcs self.now.set.now) self.now.shape.now self.now.ends z }
    {
        let calp0 = self.set.hypot(z.calp, z.salp * self.ends.sbet1);
        expansion_parameter(sq(calp0) * self.shape.ep2)
    }

    // The sine of the azimuth at the second point, by Clairaut's rule.
    fn sin_arrival(&self, z: Azimuth) -> f64
        ensures { result ≡ Definitions.salp2_of self.now.ends z }
    {
        let e = &self.ends;
        if e.cbet2 == e.cbet1 {
            z.salp
        } else {
            z.salp * e.cbet1 / e.cbet2
        }
    }

    // cos² β2 - cos² β1.
    fn cosine_gain(&self) -> f64
        ensures { result ≡ Definitions.gain self.now.ends }
    {
        let e = &self.ends;
        if e.cbet1 < -e.sbet1 {
            (e.cbet2 - e.cbet1) * (e.cbet1 + e.cbet2)
        } else {
            (e.sbet1 - e.sbet2) * (e.sbet1 + e.sbet2)
        }
    }

    // The cosine of the azimuth at the second point, which is not negative.
    fn cos_arrival(&self, z: Azimuth) -> f64
        ensures { result ≡ Definitions.calp2_of self.now.ends z }
    {
        let e = &self.ends;
        if e.cbet2 == e.cbet1 && e.sbet2.abs() == -e.sbet1 {
            z.calp.abs()
        } else {
            sqrt(sq(z.calp * e.cbet1) + self.cosine_gain()) / e.cbet2
        }
    }

    // The azimuth at the second point.
    #[tactic(auto, unfolding(crate::specs::Lambda::arrival))]
    fn arrival(&self, z: Azimuth) -> Azimuth
        ensures { result ≡ Definitions.arrival self.now.ends z }
    {
        Azimuth {
            salp: self.sin_arrival(z),
            calp: self.cos_arrival(z),
        }
    }

    #[tactic(auto, unfolding(crate::specs::Lambda::arc_between))]
    fn arc_between(&self, z: Azimuth, z2: Azimuth) -> Arc
        ensures { result ≡ Definitions.arc_between (F.funcs self.now.set.now) self.now.ends z z2 }
    {
        let e = &self.ends;
        let from = norm(self.set, e.sbet1, z.calp * e.cbet1);
        let to = norm(self.set, e.sbet2, z2.calp * e.cbet2);
        Arc::between(self.set, from, to)
    }

    // The geodesic of an azimuth at the first point.
    #[tactic(auto, unfolding(crate::specs::Lambda::trial_of))]
    fn trial(&self, alp1: Azimuth) -> Trial
        ensures { result ≡ Definitions.trial_of (F.funcs self.now.set.now) self.now.shape.now self.now.ends alp1 }
    {
        let alp2 = self.arrival(alp1);
        Trial {
            alp1,
            alp2,
            arc: self.arc_between(alp1, alp2),
            eps: self.epsilon(alp1),
        }
    }

    // The spherical longitude difference ω12 less the wanted λ12.
    #[tactic(auto, unfolding(crate::specs::Lambda::eta_of))]
    fn eta(&self, t: &Trial) -> f64
        ensures { result ≡ Definitions.eta_of (F.funcs self.now.set.now) self.now.ends self.now.difference t.now }
    {
        let e = &self.ends;
        let d = &self.difference;
        let salp0 = t.alp1.salp * e.cbet1;
        let somg1 = salp0 * e.sbet1;
        let comg1 = t.alp1.calp * e.cbet1;
        let somg2 = salp0 * e.sbet2;
        let comg2 = t.alp2.calp * e.cbet2;
        let somg12 = larger(comg1 * somg2 - somg1 * comg2, 0.0);
        let comg12 = comg1 * comg2 + somg1 * somg2;
        self.set.atan2(
            somg12 * d.clam12 - comg12 * d.slam12,
            comg12 * d.clam12 + somg12 * d.slam12,
        )
    }

    // λ12 - ω12.
    #[tactic(auto, unfolding(crate::specs::Lambda::domg12_of))]
    fn omega_gain(&self, t: &Trial) -> f64
        ensures { result ≡ Definitions.domg12_of self.now.shape.now self.now.ends t.now }
    {
        let salp0 = t.alp1.salp * self.ends.cbet1;
        let B312 = t.arc.wave(&self.shape._C3f(t.eps));
        -self.shape.f * self.shape._A3f(t.eps) * salp0 * (t.arc.sig12 + B312)
    }

    // The derivative of λ12 by the azimuth at the first point.
    #[tactic(auto, unfolding(crate::specs::Lambda::slope_of))]
    fn slope(&self, t: &Trial) -> f64
        ensures { result ≡ Definitions.slope_of self.now.shape.now self.now.ends t.now }
    {
        let e = &self.ends;
        if t.alp2.calp == 0.0 {
            -2.0 * self.shape.f1 * e.dn1 / e.sbet1
        } else {
            let l = self.shape._Lengths(t.eps, &t.arc, e, REDUCEDLENGTH);
            l.m12b * (self.shape.f1 / (t.alp2.calp * e.cbet2))
        }
    }

    // The derivative where it is wanted, else NaN, as `_Lambda12` of the crate answers.
    fn slope_if(&self, wanted: bool, t: &Trial) -> f64
        ensures { result ≡ Definitions.slope_if wanted self.now.shape.now self.now.ends t.now }
    {
        if wanted { self.slope(t) } else { f64::NAN }
    }

    #[tactic(auto, unfolding(crate::specs::Lambda::lambda_from, crate::specs::Lambda::lambda_along, crate::specs::Lambda::trial_of))]
    fn lambda_from(&self, z: Azimuth, diffp: bool) -> Lambda
        ensures { result ≡ of_problem F.funcs self.now Definitions.lambda_from z diffp }
    {
        let t = self.trial(z);
        let domg12 = self.omega_gain(&t);
        Lambda {
            lam12: self.eta(&t) + domg12,
            alp2: t.alp2,
            arc: t.arc,
            eps: t.eps,
            domg12,
            dlam12: self.slope_if(diffp, &t),
        }
    }

    // One evaluation of the longitude equation; diffp, as the crate names it, asks for the derivative
    // too, which is else NaN.
    #[tactic(auto, unfolding(crate::specs::Lambda::lambda12))]
    pub fn _Lambda12(&self, z: Azimuth, diffp: bool) -> Lambda
        ensures { result ≡ of_problem F.funcs self.now Definitions.lambda12 z diffp }
    {
        self.lambda_from(self.steer(z), diffp)
    }
}
