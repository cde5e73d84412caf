// The canonical form of an inverse problem: the first point is the one farther from the equator and
// lies to the south, the second lies to the east.
ghost use Rattle.std.specs.Prelude.{◌≡◌};
ghost use Rattle.inverse.specs.Canonical as Definitions;

use geomath::{ang_diff, ang_round, lat_fix};

// The four numbers on which all lengths depend: the longitude difference, what it leaves of a half
// turn, and the two latitudes.
#[derive(Clone, Copy, Debug, PartialEq)]
pub struct Canonical {
    pub lon12: f64,
    pub lon12s: f64,
    pub lat1: f64,
    pub lat2: f64,
}

// The longitude part, and 1 where the second point lies to the east, else -1: a sign is a factor, as in
// the crate.
#[derive(Clone, Copy, Debug, PartialEq)]
pub struct Longitudes {
    pub lonsign: f64,
    pub lon12: f64,
    pub lon12s: f64,
}

// The latitude part, whether the points were exchanged, and the sign that brings the first to the south,
// a factor as in the crate.
#[derive(Clone, Copy, Debug, PartialEq)]
pub struct Latitudes {
    pub swapped: bool,
    pub latsign: f64,
    pub lat1: f64,
    pub lat2: f64,
}

// The way back: an exchange, and the signs of the azimuths' sines and cosines and of the area, factors as
// in the crate.
#[derive(Clone, Copy, Debug, PartialEq)]
pub struct Signs {
    pub swapped: bool,
    pub salp: f64,
    pub calp: f64,
    pub area: f64,
}

impl Longitudes {
    #[tactic(auto, unfolding(crate::specs::Canonical::longitudes))]
    fn between(lon1: f64, lon2: f64) -> Longitudes
        ensures { result ≡ Definitions.longitudes lon1 lon2 }
    {
        let (d, t) = ang_diff(lon1, lon2);
        let lonsign = if d >= 0.0 { 1.0 } else { -1.0 };
        let lon12 = lonsign * ang_round(d);
        let lon12s = ang_round((180.0 - lon12) - lonsign * t);
        Longitudes {
            lonsign,
            lon12,
            lon12s,
        }
    }
}

impl Latitudes {
    // The latitudes times the sign that brings the first to the south.
    #[tactic(auto, unfolding(crate::specs::Canonical::turned_south))]
    fn turned_south(swapped: bool, lat1: f64, lat2: f64) -> Latitudes
        ensures { result ≡ Definitions.turned_south swapped lat1 lat2 }
    {
        let latsign = if lat1 < 0.0 { 1.0 } else { -1.0 };
        Latitudes {
            swapped,
            latsign,
            lat1: lat1 * latsign,
            lat2: lat2 * latsign,
        }
    }

    #[tactic(auto, unfolding(crate::specs::Canonical::latitudes, crate::specs::Canonical::sorted))]
    fn between(lat1: f64, lat2: f64) -> Latitudes
        ensures { result ≡ Definitions.latitudes lat1 lat2 }
    {
        let lat1 = ang_round(lat_fix(lat1));
        let lat2 = ang_round(lat_fix(lat2));
        if lat1.abs() < lat2.abs() {
            Latitudes::turned_south(true, lat2, lat1)
        } else {
            Latitudes::turned_south(false, lat1, lat2)
        }
    }
}

impl Signs {
    #[tactic(auto, unfolding(crate::specs::Canonical::signs_of))]
    fn new(swapped: bool, lonsign: f64, latsign: f64) -> Signs
        ensures { result ≡ Definitions.signs_of swapped lonsign latsign }
    {
        // An exchange multiplies by -1.0, as the crate does.
        let (swapp, lonsign) = if swapped {
            (-1.0, lonsign * -1.0)
        } else {
            (1.0, lonsign)
        };
        Signs {
            swapped,
            salp: swapp * lonsign,
            calp: swapp * latsign,
            area: swapp * lonsign * latsign,
        }
    }
}

impl Canonical {
    // The canonical form of two points, and the way back. Four floats, as `_gen_inverse` has them.
    #[tactic(auto, unfolding(crate::specs::Canonical::canonical, crate::specs::Canonical::signs))]
    pub fn between(lat1: f64, lon1: f64, lat2: f64, lon2: f64) -> (Canonical, Signs)
        ensures form { result.0 ≡ Definitions.canonical lat1 lon1 lat2 lon2 }
        ensures back { result.1 ≡ Definitions.signs lat1 lon1 lat2 lon2 }
    {
        let lon = Longitudes::between(lon1, lon2);
        let lat = Latitudes::between(lat1, lat2);
        let form = Canonical {
            lon12: lon.lon12,
            lon12s: lon.lon12s,
            lat1: lat.lat1,
            lat2: lat.lat2,
        };
        (form, Signs::new(lat.swapped, lon.lonsign, lat.latsign))
    }
}
