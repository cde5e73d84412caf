// The public calls: an ellipsoid, its area, and the inverse problem on it.
ghost use Rattle.std.specs.Prelude.{◌≡◌, Some, None, MatchResult};
ghost use Rattle.ellipsoid.specs.Ellipsoids.{whole_of, wgs84_a, wgs84_f};
ghost use Rattle.ellipsoid.specs.Ellipsoids as Ellipsoids;
ghost use Rattle.inverse.specs.Inverse.{inverse_azi};
ghost use Rattle.inverse.specs.MirrorLaw.{MirrorLaw};
ghost use Rattle.geodesic.specs.Answers.{answered, edge_of};
ghost use Rattle.geodesic.specs.Shapes.{accepts_shape, shape_refusal};
ghost use Rattle.inverse.specs.Inverse as Definitions;
ghost use Rattle.ellipsoid.specs.Capabilities.{polygon_area};
ghost use Rattle.inverse.proofs.Evaluations.{inverse_few};

use crate::model::Geodesic;
use ellipsoid::capability::POLYGONAREA_MASK;
use ellipsoid::shape::{Ellipsoid, WGS84_A, WGS84_F};
use functions::FunctionSet;
use inverse::{_gen_inverse, _gen_inverse_azi, Bearings, Directions, Inverse};
use surface::{Edge, Refusal, Surface, accept, whole_fits};

// Whether a and f lie within the accepted ranges.
#[tactic(auto, using(floats::proofs::Ranges::at_most))]
fn accepted_shape(a: f64, f: f64) -> bool
    ensures { result ≡ accepts_shape a f }
{
    (1.0..=1e9).contains(&a) && (-0.02..=0.02).contains(&f)
}

// Refuses two points unless both are accepted. Four floats, as the crate's calls have them.
pub fn accept_both(lat1: f64, lon1: f64, lat2: f64, lon2: f64) -> Result<(), Refusal>
    ensures { result ≡ answered lat1 lon1 lat2 lon2 tt }
{
    accept(lat1, lon1)?;
    accept(lat2, lon2)
}

impl<F: FunctionSet + Drop> Geodesic<F> {
    // The ellipsoid of the equatorial radius a, from 1 to 10^9, and the flattening f, from -0.02 to
    // 0.02; refused where its whole area is not finite or is below 2^-1021.
    #[tactic(auto, unfolding(crate::specs::Shapes::shape_refusal))]
    pub fn new(set: F, a: f64, f: f64) -> Result<Geodesic<F>, Refusal>
        ensures { MatchResult result (λ g. (shape_refusal (F.funcs set) a f ≡ None) × (g.set ≡ set) × (g.shape ≡ Ellipsoids.ellipsoid (F.funcs set) a f)) (λ e. shape_refusal (F.funcs set) a f ≡ Some e) }
    {
        if !accepted_shape(a, f) {
            return Err(Refusal::Shape);
        }
        let shape = Ellipsoid::new(&set, a, f);
        if !whole_fits(shape.area()) {
            return Err(Refusal::WholeArea);
        }
        Ok(Geodesic { set, shape })
    }

    // The WGS84 ellipsoid.
    pub fn wgs84(set: F) -> Result<Geodesic<F>, Refusal>
        ensures { MatchResult result (λ g. (shape_refusal (F.funcs set) wgs84_a wgs84_f ≡ None) × (g.set ≡ set) × (g.shape ≡ Ellipsoids.ellipsoid (F.funcs set) wgs84_a wgs84_f)) (λ e. shape_refusal (F.funcs set) wgs84_a wgs84_f ≡ Some e) }
    {
        Geodesic::new(set, WGS84_A, WGS84_F)
    }
}

impl<F: FunctionSet> Geodesic<F> {
    // The ellipsoid's constants.
    pub fn ellipsoid(&self) -> Ellipsoid
        ensures { result ≡ self.now.shape }
    {
        self.shape
    }

    // The area of the whole ellipsoid.
    pub fn area(&self) -> f64
        ensures { result ≡ whole_of self.now.shape }
    {
        self.shape.area()
    }

    // The figures of the geodesic between two points that the mask wants; the others are NaN. The
    // argument list is the crate's.
    #[tactic(auto, using(inverse::proofs::MirrorLaw::mirror_law))]
    pub fn inverse(
        &self,
        lat1: f64,
        lon1: f64,
        lat2: f64,
        lon2: f64,
        mask: u64,
    ) -> Result<Inverse<Directions>, Refusal>
        ensures value { result ≡ answered lat1 lon1 lat2 lon2 (Definitions.inverse (F.funcs self.now.set) self.now.shape mask lat1 lon1 lat2 lon2) }
        ensures mirror { MirrorLaw }
    {
        accept_both(lat1, lon1, lat2, lon2)?;
        Ok(_gen_inverse(&self.set, &self.shape, lat1, lon1, lat2, lon2, mask))
    }

    // The same with bearings in degrees. The argument list is the crate's.
    pub fn inverse_azi(
        &self,
        lat1: f64,
        lon1: f64,
        lat2: f64,
        lon2: f64,
        mask: u64,
    ) -> Result<Inverse<Bearings>, Refusal>
        ensures { result ≡ answered lat1 lon1 lat2 lon2 (inverse_azi (F.funcs self.now.set) self.now.shape mask lat1 lon1 lat2 lon2) }
    {
        accept_both(lat1, lon1, lat2, lon2)?;
        Ok(_gen_inverse_azi(&self.set, &self.shape, lat1, lon1, lat2, lon2, mask))
    }
}

// The ellipsoid as a surface: the length and area of an edge are those of the geodesic.
impl<F: FunctionSet> Surface for Geodesic<F> {
    ghost edges = { λ s. edge_of (F.FunctionSet.funcs s.set) s.shape };

    ghost whole = { λ s. whole_of s.shape };

    ghost fits = { λ s. s.fits };

    ghost few = { unfold edge_of in λ s lat1 lon1 lat2 lon2. inverse_few (F.FunctionSet.funcs s.set) s.shape polygon_area lat1 lon1 lat2 lon2 };

    #[tactic(auto, unfolding(crate::specs::Answers::edge_of))]
    fn edge(&self, lat1: f64, lon1: f64, lat2: f64, lon2: f64) -> Edge {
        let figures = _gen_inverse(
            &self.set,
            &self.shape,
            lat1,
            lon1,
            lat2,
            lon2,
            POLYGONAREA_MASK,
        );
        Edge::from(figures)
    }

    fn area(&self) -> f64 {
        self.shape.area()
    }
}
