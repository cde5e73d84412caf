// What a line of a list must meet: the figures that the code answers, bit by bit or within a tolerance.
ghost use Rattle.std.specs.Prelude.{◌≡◌};
ghost use Rattle.vectors_inverse.specs.Rows.{writes};
ghost use Rattle.vectors_inverse.specs.Judges.{figures_of, ends_agree, pair_agrees, outline_meets, is_near, near_solved, near_ends, rounded_agrees};

use crate::outlines::Outlines;
use crate::rows::{Ends, ends_of, writes};
use functions::SeriesSet;
use geodesic::capability::ALL;
use geodesic::{Bearings, Directions, Geodesic, Inverse};
use replay::Judge;
use text::patterns;

// The figures in the order of a list, the count of evaluations last.
fn figures_of(r: Inverse<Directions>) -> [f64; 11]
    ensures { result ≡ figures_of r }
{
    [
        r.a12,
        r.s12,
        r.directions.salp1,
        r.directions.calp1,
        r.directions.salp2,
        r.directions.calp2,
        r.m12,
        r.M12,
        r.M21,
        r.S12,
        f64::from(r.evaluations),
    ]
}

// Whether a row begins with the figures.
fn figures_agree(r: Inverse<Directions>, row: &str) -> bool
    ensures { result ≡ writes (figures_of r) row.now }
{
    writes(&figures_of(r), row)
}

// Whether a row begins with the figures of the geodesic between two points.
fn pair_agrees(geodesic: &Geodesic<SeriesSet>, mask: u64, e: Ends, row: &str) -> bool
    ensures { result ≡ ends_agree geodesic.now.shape mask e row.now }
{
    geodesic
        .inverse(e.lat1, e.lon1, e.lat2, e.lon2, mask)
        .is_ok_and(|r| figures_agree(r, row))
}

// Geodesics on an ellipsoid, with the figures that the mask wants.
#[derive(Drop)]
pub struct Pairs {
    pub geodesic: Geodesic<SeriesSet>,
    pub mask: u64,
}

impl Judge for Pairs {
    ghost meets = { λ s. pair_agrees s.geodesic.shape s.mask };

    // The ends, and the figures of the geodesic between them.
    fn judge(&self, line: &str) -> bool {
        ends_of(line).is_some_and(|(e, row)| pair_agrees(&self.geodesic, self.mask, e, row))
    }
}

impl Judge for Outlines {
    ghost meets = { λ s. outline_meets s.winding s.sign };

    // The perimeter, the area and the count, and the points of the polygon.
    fn judge(&self, line: &str) -> bool {
        Geodesic::wgs84(SeriesSet).is_ok_and(|surface| self.agree(surface, line))
    }
}

// Geodesics whose bearings and distance are known within a tolerance.
#[derive(Drop)]
pub struct Rounded {
    pub geodesic: Geodesic<SeriesSet>,
}

// 10^-11 degrees, and 10^-8 metres.
const BEARING_TOLERANCE: f64 = 1e-11;

const LENGTH_TOLERANCE: f64 = 1e-8;

// Whether two numbers differ by the tolerance at most.
fn is_near(y: f64, x: f64, tolerance: f64) -> bool
    ensures { result ≡ is_near y x tolerance }
{
    (y - x).abs() <= tolerance
}

// Whether a row begins with both bearings and the distance, within the tolerances.
fn near_solved(r: Inverse<Bearings>, row: &str) -> bool
    ensures { result ≡ near_solved r row.now }
{
    patterns::<3>(row).is_some_and(|([azi1, azi2, s12], _)| {
        is_near(azi1, r.directions.azi1, BEARING_TOLERANCE)
            && is_near(azi2, r.directions.azi2, BEARING_TOLERANCE)
            && is_near(s12, r.s12, LENGTH_TOLERANCE)
    })
}

// Whether a row begins with both bearings and the distance of the geodesic between two points.
fn near_pair(geodesic: &Geodesic<SeriesSet>, e: Ends, row: &str) -> bool
    ensures { result ≡ near_ends geodesic.now.shape e row.now }
{
    geodesic
        .inverse_azi(e.lat1, e.lon1, e.lat2, e.lon2, ALL)
        .is_ok_and(|r| near_solved(r, row))
}

impl Judge for Rounded {
    ghost meets = { λ s. rounded_agrees s.geodesic.shape };

    // The ends, both bearings and the distance.
    fn judge(&self, line: &str) -> bool {
        ends_of(line).is_some_and(|(e, row)| near_pair(&self.geodesic, e, row))
    }
}
