// What becomes of a line: the polygon takes its point, or not.
ghost use Rattle.std.specs.Prelude.{◌≡◌};
ghost use Rattle.planimeter.specs.Steps.{step_at, traverse_after};

use crate::lines::NotAPoint;
use polygon::{Point, PolygonArea};
use script::LineFault;
use surface::Surface;

// Offers the point of a line to the polygon, and answers the point that it took. That surface and
// winding stay is told of the old and the new polygon; an invariant tells of one value.
pub fn offer<S: Surface>(
    polygon: &mut PolygonArea<S>,
    line: Result<Option<Point>, NotAPoint>,
) -> Result<Option<Point>, LineFault<NotAPoint>>
    ensures answer { result ≡ step_at polygon.old.traverse.num line }
    ensures traverse { polygon.new.traverse ≡ traverse_after (S.edges polygon.old.surface) polygon.old.traverse line }
    ensures surface { polygon.new.surface ≡ polygon.old.surface }
    ensures winding { polygon.new.winding ≡ polygon.old.winding }
{
    let Some(point) = line.map_err(LineFault::Unreadable)? else {
        return Ok(None);
    };
    polygon.add_point(point.lat, point.lon)?;
    Ok(Some(point))
}
