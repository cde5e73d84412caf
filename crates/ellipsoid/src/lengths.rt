// The distance, the reduced length and the geodesic scales along an arc, in units of b. The arguments
// are those of the crate's `_Lengths`, with the arc and the ends each as one.
ghost use Rattle.std.specs.Prelude.{◌≡◌};
ghost use Rattle.ellipsoid.specs.Lengths as Definitions;

use crate::arcs::Arc;
use crate::capability::{DISTANCE, GEODESICSCALE, REDUCEDLENGTH, wanted};
use crate::latitudes::Ends;
use crate::shape::Ellipsoid;
use series::{_A1m1f, _A2m1f, _C1f, _C2f};

// The distance integral I1, A1 - A2, and J = I1 - I2. Where the mask does not want them the first is
// NaN and the others are 0, as in the crate's `_Lengths`.
#[derive(Clone, Copy, Debug, PartialEq)]
pub struct Integrals {
    pub s12b: f64,
    pub m0: f64,
    pub J12: f64,
}

// The distance s12 and the reduced length m12 divided by b, A1 - A2, and the scales.
#[derive(Clone, Copy, Debug, PartialEq)]
pub struct Lengths {
    pub s12b: f64,
    pub m12b: f64,
    pub m0: f64,
    pub M12: f64,
    pub M21: f64,
}

// The coefficients of A1 B1 - A2 B2. Written out, since element 0 is apart, and a proof knows nothing
// of what is written behind a zip of `iter_mut()`.
#[tactic(auto, unfolding(crate::specs::Lengths::joined))]
fn joined_series(eps: f64, A1: f64, A2: f64) -> [f64; 7]
    requires { (A1 ≡ Definitions.scale1 eps) × (A2 ≡ Definitions.scale2 eps) }
    ensures { result ≡ Definitions.joined eps }
{
    let c = _C1f(eps);
    let d = _C2f(eps);
    [
        0.0,
        A1 * c[1] - A2 * d[1],
        A1 * c[2] - A2 * d[2],
        A1 * c[3] - A2 * d[3],
        A1 * c[4] - A2 * d[4],
        A1 * c[5] - A2 * d[5],
        A1 * c[6] - A2 * d[6],
    ]
}

impl Integrals {
    #[tactic(auto, unfolding(crate::specs::Lengths::integrals_with_distance))]
    fn with_distance(eps: f64, arc: &Arc, mask: u64) -> Integrals
        ensures { result ≡ Definitions.integrals_with_distance eps arc.now mask }
    {
        let A1m1 = _A1m1f(eps);
        let A1 = A1m1 + 1.0;
        let B1 = arc.wave(&_C1f(eps));
        let s12b = A1 * (arc.sig12 + B1);
        if !wanted(mask, REDUCEDLENGTH | GEODESICSCALE) {
            return Integrals {
                s12b,
                m0: 0.0,
                J12: 0.0,
            };
        }
        let A2m1 = _A2m1f(eps);
        let m0 = A1m1 - A2m1;
        let B2 = arc.wave(&_C2f(eps));
        let J12 = m0 * arc.sig12 + (A1 * B1 - (A2m1 + 1.0) * B2);
        Integrals { s12b, m0, J12 }
    }

    #[tactic(auto, unfolding(crate::specs::Lengths::integrals_without))]
    fn without_distance(eps: f64, arc: &Arc, mask: u64) -> Integrals
        ensures { result ≡ Definitions.integrals_without eps arc.now mask }
    {
        let s12b = f64::NAN;
        if !wanted(mask, REDUCEDLENGTH | GEODESICSCALE) {
            return Integrals {
                s12b,
                m0: 0.0,
                J12: 0.0,
            };
        }
        let A1m1 = _A1m1f(eps);
        let A2m1 = _A2m1f(eps);
        let m0 = A1m1 - A2m1;
        let c = joined_series(eps, A1m1 + 1.0, A2m1 + 1.0);
        let J12 = m0 * arc.sig12 + arc.wave(&c);
        Integrals { s12b, m0, J12 }
    }

    // The integrals along an arc.
    #[tactic(auto, unfolding(crate::specs::Lengths::integrals))]
    fn along(eps: f64, arc: &Arc, mask: u64) -> Integrals
        ensures { result ≡ Definitions.integrals eps arc.now mask }
    {
        if wanted(mask, DISTANCE) {
            Integrals::with_distance(eps, arc, mask)
        } else {
            Integrals::without_distance(eps, arc, mask)
        }
    }

    #[tactic(auto, unfolding(crate::specs::Lengths::reduced_of))]
    fn reduced_length(&self, arc: &Arc, ends: &Ends) -> f64
        ensures { result ≡ Definitions.reduced_of self.now.J12 arc.now ends.now }
    {
        ends.dn2 * (arc.csig1 * arc.ssig2)
            - ends.dn1 * (arc.ssig1 * arc.csig2)
            - arc.csig1 * arc.csig2 * self.J12
    }

    // m12 and A1 - A2 where the reduced length is wanted; else NaN, as `_Lengths` answers.
    fn reduced_pair(&self, arc: &Arc, ends: &Ends, mask: u64) -> (f64, f64)
        ensures reduced { result.0 ≡ Definitions.reduced_if self.now arc.now ends.now mask }
        ensures difference { result.1 ≡ Definitions.m0_if self.now mask }
    {
        if wanted(mask, REDUCEDLENGTH) {
            (self.reduced_length(arc, ends), self.m0)
        } else {
            (f64::NAN, f64::NAN)
        }
    }
}

impl Ellipsoid {
    #[tactic(auto, unfolding(crate::specs::Lengths::scale12, crate::specs::Lengths::scale21))]
    fn scales(&self, J12: f64, arc: &Arc, ends: &Ends) -> (f64, f64)
        ensures forward { result.0 ≡ Definitions.scale12 self.now J12 arc.now ends.now }
        ensures backward { result.1 ≡ Definitions.scale21 self.now J12 arc.now ends.now }
    {
        let csig12 = arc.csig1 * arc.csig2 + arc.ssig1 * arc.ssig2;
        let t = self.ep2 * (ends.cbet1 - ends.cbet2) * (ends.cbet1 + ends.cbet2)
            / (ends.dn1 + ends.dn2);
        let M12 = csig12 + (t * arc.ssig2 - arc.csig2 * J12) * arc.ssig1 / ends.dn1;
        let M21 = csig12 - (t * arc.ssig1 - arc.csig1 * J12) * arc.ssig2 / ends.dn2;
        (M12, M21)
    }

    // M12 and M21 where the scales are wanted; else NaN, as `_Lengths` answers.
    fn scale_pair(&self, own: &Integrals, arc: &Arc, ends: &Ends, mask: u64) -> (f64, f64)
        ensures forward { result.0 ≡ Definitions.scale12_if self.now own.now arc.now ends.now mask }
        ensures backward { result.1 ≡ Definitions.scale21_if self.now own.now arc.now ends.now mask }
    {
        if wanted(mask, GEODESICSCALE) {
            self.scales(own.J12, arc, ends)
        } else {
            (f64::NAN, f64::NAN)
        }
    }

    // The figures along an arc that the mask wants; the others are NaN, as in the crate.
    #[tactic(auto, unfolding(crate::specs::Lengths::lengths))]
    pub fn _Lengths(&self, eps: f64, arc: &Arc, ends: &Ends, mask: u64) -> Lengths
        ensures { result ≡ Definitions.lengths self.now eps arc.now ends.now mask }
    {
        let own = Integrals::along(eps, arc, mask);
        let (m12b, m0) = own.reduced_pair(arc, ends, mask);
        let (M12, M21) = self.scale_pair(&own, arc, ends, mask);
        Lengths {
            s12b: own.s12b,
            m12b,
            m0,
            M12,
            M21,
        }
    }
}
