// Figures from a new PolygonArea that is fed points one by one.
ghost use Rattle.std.specs.Prelude.{◌≡◌, IfOk};
ghost use Rattle.polygon.specs.Polygons.{figures_of};
ghost use Rattle.notebook.specs.Pages.{same_figures};

use area::Winding;
use polygon::{Figures, Point, PolygonArea};
use std::num::f64_to_bits_with_nan;
use surface::{Refusal, Surface};

// The figures of a new polygon with these points. Refused where a point is.
pub fn fresh_figures<S: Surface + Drop>(
    surface: S,
    winding: Winding,
    sign: bool,
    points: &[Point],
) -> Result<Figures, Refusal>
    ensures { IfOk result (λ f. f ≡ figures_of (S.edges surface) (S.whole surface) winding sign points.now) }
{
    let mut polygon = PolygonArea::new(surface, winding);
    for point in points {
        polygon.add_point(point.lat, point.lon)?;
    }
    Ok(polygon.compute(sign))
}

// Whether figures have the same count and, bit by bit, the same perimeter and area.
pub fn same_figures(one: Figures, other: Figures) -> bool
    ensures { result ≡ same_figures one other }
{
    let patterns = |figures: Figures| {
        (
            figures.count,
            f64_to_bits_with_nan(figures.perimeter),
            f64_to_bits_with_nan(figures.area),
        )
    };
    patterns(one) == patterns(other)
}
