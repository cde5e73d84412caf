// The perimeter and the area of a polygon on any surface, fed point by point.
#![tactic(auto)]

ghost use Rattle.std.specs.Prelude.{◌≡◌, ◌≤◌, unsigned_abs};
ghost use Rattle.polygon.specs.Transits.{transit_of};

mod polygon_area;

pub use area::{Winding, reduce_area};
use geomath::{ang_diff, ang_normalize};
pub use polygon_area::PolygonArea;

// A point, in degrees.
#[derive(Clone, Copy, PartialEq, Debug, Default)]
pub struct Point {
    pub lat: f64,
    pub lon: f64,
}

// What a polygon measures.
#[derive(Clone, Copy, PartialEq, Debug, Default)]
#[repr(C)]
pub struct Figures {
    pub perimeter: f64,
    pub area: f64,
    pub count: u32,
}

// What is kept of the points given so far: their count, the sums over the edges between them,
// and the first and the latest point. With no points both are (0, 0), so that the closing edge has
// no length.
#[derive(Clone, Copy, PartialEq, Debug, Default)]
pub struct Traverse {
    pub num: u32,
    pub areasum: f64,
    pub perimetersum: f64,
    pub crossings: i64,
    pub initial: Point,
    pub latest: Point,
}

// 1 or -1 where the edge between two longitudes crosses the prime meridian in the east or west
// direction, otherwise 0. Either zero counts as east. A number, since crossings are summed.
#[tactic(auto, unfolding(crate::specs::Transits::transit_of))]
pub fn transit(lon1: f64, lon2: f64) -> i64
    ensures value { result ≡ transit_of lon1 lon2 }
    ensures size { unsigned_abs result ≤ 1 }
{
    let (lon12, _) = ang_diff(lon1, lon2);
    let lon1 = ang_normalize(lon1);
    let lon2 = ang_normalize(lon2);
    if lon12 > 0.0 && ((lon1 < 0.0 && lon2 >= 0.0) || (lon1 > 0.0 && lon2 == 0.0)) {
        1
    } else if lon12 < 0.0 && lon1 >= 0.0 && lon2 < 0.0 {
        -1
    } else {
        0
    }
}
