// A traverse over the stations of a row, and its first and last point.
ghost use Rattle.std.specs.Prelude.{◌≡◌, ◌+◌, ◌*◌, ◌≤◌, map, length, unsigned_abs};
ghost use Rattle.polygon.specs.Polygons.{first_of, last_of};
ghost use Rattle.stations.specs.Stations.{point_of};
ghost use Rattle.history.specs.Calls.{traverse_of};
ghost use Rattle.outline.specs.Sums.{plus};

use polygon::{Point, Traverse};
use stations::Station;

// A traverse with the edge of one more station in its sums.
fn with(traverse: Traverse, station: &Station) -> Traverse
    requires { unsigned_abs traverse.crossings ≤ 8388480 }
    ensures value { result ≡ plus traverse station.now }
    ensures few { unsigned_abs result.crossings ≤ unsigned_abs traverse.crossings + 128 }
{
    Traverse {
        areasum: traverse.areasum + station.S12,
        perimetersum: traverse.perimetersum + station.s12,
        crossings: traverse.crossings + station.crossing as i64,
        ..traverse
    }
}

// What a traverse keeps of the stations of a row, its sums from 0.0 and 0, in the row's order.
pub(crate) fn traverse_over(row: &[Station]) -> Traverse
    requires { length row.now ≤ 65535 }
    ensures value { result ≡ traverse_of row.now }
    ensures few { unsigned_abs result.crossings ≤ 128 * length row.now }
{
    let mut traverse = Traverse {
        num: row.len() as u32,
        initial: first_point(row),
        latest: last_point(row),
        ..Traverse::default()
    };
    // A loop: what it keeps says at each turn that the crossings are few, which a fold's clause does
    // not.
    for station in row {
        traverse = with(traverse, station);
    }
    traverse
}

// The first point of a row, or (0, 0) where there is none, as a traverse begins.
fn first_point(row: &[Station]) -> Point
    ensures { result ≡ first_of (map point_of row.now) }
{
    row.first().map_or(Point::default(), Station::point)
}

// The last point of a row, or (0, 0) where there is none, as a traverse begins.
fn last_point(row: &[Station]) -> Point
    ensures { result ≡ last_of (map point_of row.now) }
{
    row.last().map_or(Point::default(), Station::point)
}
