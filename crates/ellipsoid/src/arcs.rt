// Directions, and arcs on the auxiliary sphere.
ghost use Rattle.std.specs.Prelude.{◌≡◌};
ghost use Rattle.ellipsoid.specs.Arcs as Arcs;

use floats::larger;
use functions::FunctionSet;
use series::{norm, sin_cos_series};

// The sine and cosine of an azimuth, or both times a positive number.
#[derive(Clone, Copy, Debug, Default, PartialEq)]
pub struct Azimuth {
    pub salp: f64,
    pub calp: f64,
}

impl Azimuth {
    // The same azimuth with both divided by their length.
    #[tactic(auto, unfolding(crate::specs::Arcs::unit))]
    pub fn unit<F: FunctionSet>(self, set: &F) -> Azimuth
        ensures { result ≡ Arcs.unit (F.funcs set.now) self }
    {
        let (salp, calp) = norm(set, self.salp, self.calp);
        Azimuth { salp, calp }
    }

    // The azimuth turned to the east by an angle.
    #[tactic(auto, unfolding(crate::specs::Arcs::turned))]
    pub fn turned_by<F: FunctionSet>(self, set: &F, angle: f64) -> Azimuth
        ensures { result ≡ Arcs.turned (F.funcs set.now) self angle }
    {
        let sine = set.sin(angle);
        let cosine = set.cos(angle);
        Azimuth {
            salp: self.salp * cosine + self.calp * sine,
            calp: self.calp * cosine - self.salp * sine,
        }
    }
}

// The arc length σ12 from one end to the other, and the sines and cosines of the arcs σ1 and σ2 to the
// ends, counted from the node.
#[derive(Clone, Copy, Debug, Default, PartialEq)]
pub struct Arc {
    pub sig12: f64,
    pub ssig1: f64,
    pub csig1: f64,
    pub ssig2: f64,
    pub csig2: f64,
}

impl Arc {
    // The arc between two ends, each given by sine and cosine.
    #[tactic(auto, unfolding(crate::specs::Arcs::arc_of))]
    pub fn between<F: FunctionSet>(set: &F, from: (f64, f64), to: (f64, f64)) -> Arc
        ensures { result ≡ Arcs.arc_of (F.funcs set.now) from.0 from.1 to.0 to.1 }
    {
        let (ssig1, csig1) = from;
        let (ssig2, csig2) = to;
        let sine = larger(csig1 * ssig2 - ssig1 * csig2, 0.0);
        let sig12 = set.atan2(sine, csig1 * csig2 + ssig1 * ssig2);
        Arc {
            sig12,
            ssig1,
            csig1,
            ssig2,
            csig2,
        }
    }

    // What the sum of c_l sin 2lσ gains along the arc.
    #[tactic(auto, unfolding(crate::specs::Arcs::wave))]
    pub fn wave(&self, c: &[f64]) -> f64
        ensures { result ≡ Arcs.wave self.now c.now }
    {
        sin_cos_series(true, self.ssig2, self.csig2, c)
            - sin_cos_series(true, self.ssig1, self.csig1, c)
    }
}
