// The inverse problem between two points given by latitude and longitude.
ghost use Rattle.std.specs.Prelude.{◌≡◌};
ghost use Rattle.inverse.specs.Inverse as Definitions;

use crate::canonical::{Canonical, Signs};
use crate::task::Task;
use crate::wanted::wanted_or_nan;
use azimuth::problem::Problem;
use ellipsoid::capability::{AREA, AZIMUTH};
use ellipsoid::latitudes::Difference;
use ellipsoid::shape::Ellipsoid;
use functions::FunctionSet;
use series::atan2d;
use surface::Edge;

// Sine and cosine of the azimuths at both points, under the crate's names, laid out as C has them.
#[derive(Clone, Copy, Debug, PartialEq)]
#[repr(C)]
pub struct Directions {
    pub salp1: f64,
    pub calp1: f64,
    pub salp2: f64,
    pub calp2: f64,
}

// Bearings at both points, in degrees.
#[derive(Clone, Copy, Debug, PartialEq)]
pub struct Bearings {
    pub azi1: f64,
    pub azi2: f64,
}

// The arc length in degrees and the distance in metres; the directions at both points; the reduced
// length, the scales and the area; and how many times the longitude equation was evaluated.
#[derive(Clone, Copy, Debug, PartialEq)]
pub struct Inverse<D> {
    pub a12: f64,
    pub s12: f64,
    pub directions: D,
    pub m12: f64,
    pub M12: f64,
    pub M21: f64,
    pub S12: f64,
    pub evaluations: u8,
}

impl Directions {
    // The directions with the points exchanged.
    fn exchanged(self) -> Directions
        ensures { result ≡ Definitions.exchanged_directions self }
    {
        Directions {
            salp1: self.salp2,
            calp1: self.calp2,
            salp2: self.salp1,
            calp2: self.calp1,
        }
    }

    fn signed(self, k: Signs) -> Directions
        ensures { result ≡ Definitions.signed_directions k self }
    {
        Directions {
            salp1: self.salp1 * k.salp,
            calp1: self.calp1 * k.calp,
            salp2: self.salp2 * k.salp,
            calp2: self.calp2 * k.calp,
        }
    }

    // The bearings where they are wanted, else NaN, as in the crate.
    fn bearings<F: FunctionSet>(self, set: &F, mask: u64) -> Bearings
        ensures { result ≡ Definitions.bearings (F.funcs set.now) mask self }
    {
        Bearings {
            azi1: wanted_or_nan(mask, AZIMUTH, || atan2d(set, self.salp1, self.calp1)),
            azi2: wanted_or_nan(mask, AZIMUTH, || atan2d(set, self.salp2, self.calp2)),
        }
    }
}

impl Inverse<Directions> {
    // The figures with the points exchanged.
    #[tactic(auto, unfolding(crate::specs::Inverse::exchanged))]
    fn exchanged(self) -> Inverse<Directions>
        ensures { result ≡ Definitions.exchanged self }
    {
        Inverse {
            directions: self.directions.exchanged(),
            M12: self.M21,
            M21: self.M12,
            ..self
        }
    }

    // The figures with their signs, a zero area as +0, and one that is not wanted as NaN, as in the crate.
    #[tactic(auto, unfolding(crate::specs::Inverse::signed))]
    fn signed(self, k: Signs, mask: u64) -> Inverse<Directions>
        ensures { result ≡ Definitions.signed k mask self }
    {
        Inverse {
            directions: self.directions.signed(k),
            S12: wanted_or_nan(mask, AREA, || self.S12 * k.area + 0.0),
            ..self
        }
    }

    // From the canonical form back to the given points.
    #[tactic(auto, unfolding(crate::specs::Inverse::restored))]
    fn restored(self, k: Signs, mask: u64) -> Inverse<Directions>
        ensures { result ≡ Definitions.restored k mask self }
    {
        let given = if k.swapped { self.exchanged() } else { self };
        given.signed(k, mask)
    }

    // The same with bearings in degrees.
    fn with_bearings<F: FunctionSet>(self, set: &F, mask: u64) -> Inverse<Bearings>
        ensures { result ≡ Definitions.with_bearings (F.funcs set.now) mask self }
    {
        Inverse {
            a12: self.a12,
            s12: self.s12,
            directions: self.directions.bearings(set, mask),
            m12: self.m12,
            M12: self.M12,
            M21: self.M21,
            S12: self.S12,
            evaluations: self.evaluations,
        }
    }
}

// An edge has the length and the area of a geodesic.
impl From<Inverse<Directions>> for Edge {
    ghost from_gives = { λ r e. e ≡ Definitions.edge_from r };

    fn from(r: Inverse<Directions>) -> Edge {
        Edge {
            s12: r.s12,
            S12: r.S12,
            evaluations: r.evaluations,
        }
    }
}

// The inverse problem in canonical form.
#[tactic(auto, unfolding(crate::specs::Inverse::solved))]
pub fn solve<F: FunctionSet>(
    set: &F,
    shape: &Ellipsoid,
    mask: u64,
    form: Canonical,
) -> Inverse<Directions>
    ensures { result ≡ Definitions.solved (F.funcs set.now) shape.now mask form }
{
    let problem = Problem {
        set,
        shape,
        ends: shape.ends_of(set, form.lat1, form.lat2),
        difference: Difference::new(set, form.lon12, form.lon12s),
    };
    let task = Task {
        problem,
        form,
        mask,
    };
    task.measure(&task.path())
}

// The inverse problem for any four floats. The argument list is the crate's.
#[tactic(auto, unfolding(crate::specs::Inverse::inverse))]
pub fn _gen_inverse<F: FunctionSet>(
    set: &F,
    shape: &Ellipsoid,
    lat1: f64,
    lon1: f64,
    lat2: f64,
    lon2: f64,
    mask: u64,
) -> Inverse<Directions>
    ensures { result ≡ Definitions.inverse (F.funcs set.now) shape.now mask lat1 lon1 lat2 lon2 }
{
    let (form, signs) = Canonical::between(lat1, lon1, lat2, lon2);
    solve(set, shape, mask, form).restored(signs, mask)
}

// The inverse problem with bearings in degrees. The argument list is the crate's.
#[tactic(auto, unfolding(crate::specs::Inverse::inverse_azi))]
pub fn _gen_inverse_azi<F: FunctionSet>(
    set: &F,
    shape: &Ellipsoid,
    lat1: f64,
    lon1: f64,
    lat2: f64,
    lon2: f64,
    mask: u64,
) -> Inverse<Bearings>
    ensures { result ≡ Definitions.inverse_azi (F.funcs set.now) shape.now mask lat1 lon1 lat2 lon2 }
{
    _gen_inverse(set, shape, lat1, lon1, lat2, lon2, mask).with_bearings(set, mask)
}
