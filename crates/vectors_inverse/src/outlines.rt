// Polygons of a list: the points that a text writes, fed to a polygon on WGS84.
ghost use Rattle.std.specs.Prelude.{◌≡◌, length};
ghost use Rattle.functions.specs.Series.{series};
ghost use Rattle.ellipsoid.specs.Ellipsoids.{whole_of};
ghost use Rattle.geodesic.specs.Answers.{edge_of};
ghost use Rattle.vectors_inverse.specs.Outlines.{offered_words, fed_words, row_of, outline_agrees};

use crate::rows::{after_three, writes};
use area::Winding;
use functions::SeriesSet;
use geodesic::Geodesic;
use polygon::{Figures, PolygonArea};
use text::{pattern_of, split_word};

// Offers the point of two words to the polygon; words that are no patterns are no point. That the
// surface and the winding stay is a clause here and in `feed`, since no type says it of a `&mut`.
fn offer(polygon: &mut PolygonArea<Geodesic<SeriesSet>>, lat: &str, lon: &str)
    ensures traverse { polygon.new.traverse ≡ offered_words (edge_of series polygon.old.surface.shape) polygon.old.traverse lat.now lon.now }
    ensures surface { polygon.new.surface ≡ polygon.old.surface }
    ensures winding { polygon.new.winding ≡ polygon.old.winding }
{
    if let (Some(lat), Some(lon)) = (pattern_of(lat), pattern_of(lon)) {
        let _ = polygon.add_point(lat, lon);
    }
}

// Offers the points that a text writes, in their order.
fn feed(polygon: &mut PolygonArea<Geodesic<SeriesSet>>, text: &str)
    ensures traverse { polygon.new.traverse ≡ fed_words (edge_of series polygon.old.surface.shape) (length text.now) text.now polygon.old.traverse }
    ensures surface { polygon.new.surface ≡ polygon.old.surface }
    ensures winding { polygon.new.winding ≡ polygon.old.winding }
{
    let mut rest = text;
    // A text has no more points than bytes.
    for _ in 0..text.len() {
        let (lat, after) = split_word(rest);
        if lat.is_empty() {
            return;
        }
        let (lon, later) = split_word(after);
        offer(polygon, lat, lon);
        rest = later;
    }
}

// The figures in the order of a list.
fn row_of(figures: Figures) -> [f64; 3]
    ensures { result ≡ row_of figures }
{
    [figures.perimeter, figures.area, f64::from(figures.count)]
}

// Polygons, with the sense of traversal that counts as positive, with or without a sign.
#[derive(Clone, Copy, PartialEq, Eq, Debug, Hash)]
pub struct Outlines {
    pub winding: Winding,
    pub sign: bool,
}

impl Outlines {
    // Whether a line is the perimeter, the area and the count of the polygon of its points.
    pub fn agree(self, surface: Geodesic<SeriesSet>, line: &str) -> bool
        ensures { result ≡ outline_agrees (edge_of series surface.shape) (whole_of surface.shape) self.winding self.sign line.now }
    {
        let mut polygon = PolygonArea::new(surface, self.winding);
        feed(&mut polygon, after_three(line));
        writes(&row_of(polygon.compute(self.sign)), line)
    }
}
