// The calls from C that answer figures. A call that is not done leaves what stands behind its last
// pointer.
ghost use Rattle.std.specs.Prelude.{◌≡◌};
ghost use Rattle.outline_c.specs.Faults.{told_code, written};
ghost use Rattle.outline_c.specs.Exports.{measured_on, figures_from, inverse_of};

use crate::faults::{Fault, tell};
use crate::kept::KeptOutline;
use earth::wgs84;
use functions::SeriesSet;
use geomath::accepted;
use history::Measurement;
use inverse::{_gen_inverse, Directions, Inverse};
use stations::{EditRecord, Station};
use surface::Refusal;

// An inverse as C knows it. A struct with type arguments cannot stand behind a pointer from C.
#[derive(Clone, Copy, PartialEq, Debug)]
#[repr(C)]
pub struct InverseFigures {
    pub a12: f64,
    pub s12: f64,
    pub directions: Directions,
    pub m12: f64,
    pub M12: f64,
    pub M21: f64,
    pub S12: f64,
    pub evaluations: u8,
}

impl From<Inverse<Directions>> for InverseFigures {
    ghost from_gives = { λ r figures. figures ≡ figures_from r };

    fn from(r: Inverse<Directions>) -> InverseFigures {
        InverseFigures {
            a12: r.a12,
            s12: r.s12,
            directions: r.directions,
            m12: r.m12,
            M12: r.M12,
            M21: r.M21,
            S12: r.S12,
            evaluations: r.evaluations,
        }
    }
}

// The figures of the outline that is kept.
fn measured(
    kept: &KeptOutline,
    stations: &[Station],
    edits: &[EditRecord],
    sign: bool,
) -> Result<Measurement, Fault>
    ensures { result ≡ measured_on kept.now stations.now edits.now sign }
{
    let outline = kept.taken_up()?;
    Ok(outline.measure(stations, edits, sign)?)
}

// The figures of an outline, closed by the edge from its last point to its first.
#[unsafe(no_mangle)]
pub extern "C" fn outline_measure(
    kept: &KeptOutline,
    stations: &[Station],
    edits: &[EditRecord],
    sign: bool,
    measurement: &mut Measurement,
) -> u32
    ensures code { result ≡ told_code (measured_on kept.now stations.now edits.now sign) }
    ensures measurement { measurement.new ≡ written measurement.old (measured_on kept.now stations.now edits.now sign) }
{
    tell(measured(kept, stations, edits, sign), measurement)
}

// The figures of the geodesic between two points that are accepted. The arguments are those of
// `outline_inverse`, in the crate's order.
fn inverse_between(
    lat1: f64,
    lon1: f64,
    lat2: f64,
    lon2: f64,
    mask: u64,
) -> Result<InverseFigures, Fault>
    ensures { result ≡ inverse_of lat1 lon1 lat2 lon2 mask }
{
    // As `Geodesic::inverse` tests them; it would reckon the ellipsoid anew.
    if !(accepted(lat1, lon1) && accepted(lat2, lon2)) {
        return Err(Fault::Refused(Refusal::Point));
    }
    Ok(_gen_inverse(&SeriesSet, wgs84(), lat1, lon1, lat2, lon2, mask).into())
}

// The figures of the geodesic between two points of the WGS84 ellipsoid that the mask wants; the
// others are NaN.
#[unsafe(no_mangle)]
pub extern "C" fn outline_inverse(
    lat1: f64,
    lon1: f64,
    lat2: f64,
    lon2: f64,
    mask: u64,
    figures: &mut InverseFigures,
) -> u32
    ensures code { result ≡ told_code (inverse_of lat1 lon1 lat2 lon2 mask) }
    ensures figures { figures.new ≡ written figures.old (inverse_of lat1 lon1 lat2 lon2 mask) }
{
    tell(inverse_between(lat1, lon1, lat2, lon2, mask), figures)
}
