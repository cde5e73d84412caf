// The two ends of a geodesic on the auxiliary sphere, and their difference in longitude.
ghost use Rattle.std.specs.Prelude.{◌≡◌};
ghost use Rattle.ellipsoid.specs.ReducedLatitudes as Definitions;

use crate::shape::{Ellipsoid, TINY};
use floats::{larger, sqrt};
use functions::FunctionSet;
use geomath::sq;
use series::{norm, sincosd};

// Sine and cosine of the reduced latitudes, and dn = √(1 + e'² sin² β), each under the crate's name
// for it.
#[derive(Clone, Copy, Debug, PartialEq)]
pub struct Ends {
    pub sbet1: f64,
    pub cbet1: f64,
    pub dn1: f64,
    pub sbet2: f64,
    pub cbet2: f64,
    pub dn2: f64,
}

impl Ends {
    // The sine of β2 - β1.
    #[tactic(auto, unfolding(crate::specs::ReducedLatitudes::sin_difference))]
    pub fn sin_difference(&self) -> f64
        ensures { result ≡ Definitions.sin_difference self.now }
    {
        self.sbet2 * self.cbet1 - self.cbet2 * self.sbet1
    }

    // The cosine of β2 - β1.
    pub fn cos_difference(&self) -> f64
        ensures { result ≡ Definitions.cos_difference self.now }
    {
        self.cbet2 * self.cbet1 + self.sbet2 * self.sbet1
    }

    // The sine of β2 + β1.
    #[tactic(auto, unfolding(crate::specs::ReducedLatitudes::sin_sum))]
    pub fn sin_sum(&self) -> f64
        ensures { result ≡ Definitions.sin_sum self.now }
    {
        self.sbet2 * self.cbet1 + self.cbet2 * self.sbet1
    }

    // The cosine of β2 + β1.
    pub fn cos_sum(&self) -> f64
        ensures { result ≡ Definitions.cos_sum self.now }
    {
        self.cbet2 * self.cbet1 - self.sbet2 * self.sbet1
    }
}

// The longitude difference in radians, and its sine and cosine.
#[derive(Clone, Copy, Debug, PartialEq)]
pub struct Difference {
    pub lam12: f64,
    pub slam12: f64,
    pub clam12: f64,
}

impl Difference {
    // The longitude difference of a canonical form, with what is left of a half turn beside it.
    #[tactic(auto, unfolding(crate::specs::ReducedLatitudes::difference_of))]
    pub fn new<F: FunctionSet>(set: &F, lon12: f64, lon12s: f64) -> Difference
        ensures { result ≡ Definitions.difference_of (F.funcs set.now) lon12 lon12s }
    {
        let (slam12, clam12) = if lon12 > 90.0 {
            let (s, c) = sincosd(set, lon12s);
            (s, -c)
        } else {
            sincosd(set, lon12)
        };
        Difference {
            lam12: lon12.to_radians(),
            slam12,
            clam12,
        }
    }
}

// Where cos β is the smaller one and is the same, the sine is made to agree in size.
fn matched_sine(sbet1: f64, cbet1: f64, sbet2: f64, cbet2: f64) -> f64
    ensures { result ≡ Definitions.matched_sine sbet1 cbet1 sbet2 cbet2 }
{
    if cbet1 < -sbet1 && cbet2 == cbet1 {
        if sbet2 < 0.0 { sbet1 } else { -sbet1 }
    } else {
        sbet2
    }
}

// Where sin β is the smaller one and is the same in size, the cosine is made to agree.
fn matched_cosine(sbet1: f64, cbet1: f64, sbet2: f64, cbet2: f64) -> f64
    ensures { result ≡ Definitions.matched_cosine sbet1 cbet1 sbet2 cbet2 }
{
    if !(cbet1 < -sbet1) && sbet2.abs() == -sbet1 {
        cbet1
    } else {
        cbet2
    }
}

impl Ellipsoid {
    // Sine and cosine of the reduced latitude; at a pole the cosine is tiny rather than 0.
    #[tactic(auto, unfolding(crate::specs::ReducedLatitudes::sin_reduced, crate::specs::ReducedLatitudes::cos_reduced))]
    fn reduced<F: FunctionSet>(&self, set: &F, lat: f64) -> (f64, f64)
        ensures sine { result.0 ≡ Definitions.sin_reduced (F.funcs set.now) self.now lat }
        ensures cosine { result.1 ≡ Definitions.cos_reduced (F.funcs set.now) self.now lat }
    {
        let (s, c) = sincosd(set, lat);
        let (sbet, cbet) = norm(set, s * self.f1, c);
        (sbet, larger(cbet, TINY))
    }

    #[tactic(auto, unfolding(crate::specs::ReducedLatitudes::dn_of))]
    fn dn(&self, sbet: f64) -> f64
        ensures { result ≡ Definitions.dn_of self.now sbet }
    {
        sqrt(1.0 + self.ep2 * sq(sbet))
    }

    // The ends of a geodesic between two latitudes.
    #[tactic(auto, unfolding(crate::specs::ReducedLatitudes::ends_of))]
    pub fn ends_of<F: FunctionSet>(&self, set: &F, lat1: f64, lat2: f64) -> Ends
        ensures { result ≡ Definitions.ends_of (F.funcs set.now) self.now lat1 lat2 }
    {
        let (sbet1, cbet1) = self.reduced(set, lat1);
        let (s, c) = self.reduced(set, lat2);
        let sbet2 = matched_sine(sbet1, cbet1, s, c);
        let cbet2 = matched_cosine(sbet1, cbet1, s, c);
        Ends {
            sbet1,
            cbet1,
            dn1: self.dn(sbet1),
            sbet2,
            cbet2,
            dn2: self.dn(sbet2),
        }
    }
}
