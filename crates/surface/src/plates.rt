// The plate carrée, in sheet units.
ghost use Rattle.std.specs.Prelude.{◌≡◌, true, Some, None, MatchResult};
ghost use Rattle.surface.specs.Plates.{plate_area, plate_edge, plate_refusal};
ghost use Rattle.surface.specs.Wholes.{whole_fits};
ghost use Rattle.std.proofs.Math.Dec.{lit≤};

use crate::{Edge, Refusal, Surface, whole_fits};
use floats::sqrt;
use geomath::ang_diff;

// 360 times 180.
const SQUARE_DEGREES: f64 = 64800.0;

// A plate on which a degree is `scale` units long.
#[derive(Clone, Copy, PartialEq, Debug)]
pub struct Plate {
    scale: f64,
    ghost fits: { whole_fits (plate_area scale) ≡ true },
}

impl Plate {
    // A plate of the scale k, from 1 to 10^6; refused where its whole area is not finite or is
    // below 2^-1021.
    #[tactic(auto, using(floats::proofs::Ranges::at_most))]
    pub fn new(k: f64) -> Result<Plate, Refusal>
        ensures { MatchResult result (λ p. (plate_refusal k ≡ None) × (p.scale ≡ k)) (λ e. plate_refusal k ≡ Some e) }
    {
        if !(1.0..=1e6).contains(&k) {
            return Err(Refusal::Shape);
        }
        if !whole_fits(k * k * SQUARE_DEGREES) {
            return Err(Refusal::WholeArea);
        }
        Ok(Plate { scale: k })
    }
}

impl Surface for Plate {
    ghost edges = { λ s. plate_edge s.scale };

    ghost whole = { λ s. plate_area s.scale };

    ghost fits = { λ s. s.fits };

    ghost few = { unfold plate_edge in λ s lat1 lon1 lat2 lon2. lit≤ tt };

    #[tactic(auto, unfolding(crate::specs::Plates::plate_edge))]
    fn edge(&self, lat1: f64, lon1: f64, lat2: f64, lon2: f64) -> Edge {
        let k = self.scale;
        let (d, _) = ang_diff(lon1, lon2);
        let h = lat2 - lat1;
        Edge {
            s12: k * sqrt(d * d + h * h),
            S12: k * k * (d * ((lat1 + lat2) / 2.0)),
            evaluations: 0,
        }
    }

    fn area(&self) -> f64 {
        self.scale * self.scale * SQUARE_DEGREES
    }
}
