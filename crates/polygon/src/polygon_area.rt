// PolygonArea: a traverse on a surface, and its closing.
ghost use Rattle.std.specs.Prelude.{◌≡◌, ◌<◌, ◌≤◌, List, unsigned_abs};
ghost use Rattle.std.specs.Result.{result_err};
ghost use Rattle.polygon.specs.declared.Point.{Point};
ghost use Rattle.polygon.specs.Examples.{Examples};
ghost use Rattle.polygon.specs.Laws.{PolygonLaw};
ghost use Rattle.polygon.specs.Polygons.{figures_of};
ghost use Rattle.polygon.specs.Traverses.{begun, fed, fed_all, point_refusal, offered, closing, closed};

use crate::{Figures, Point, Traverse, transit};
use area::{Winding, reduce_area};
use geomath::accepted;
use surface::{Refusal, Surface};

// The perimeter and the area of the polygon with the points given so far.
#[derive(Drop, PartialEq, Debug)]
pub struct PolygonArea<S> {
    surface: S,
    winding: Winding,
    traverse: Traverse,
    ghost few: { unsigned_abs traverse.crossings ≤ traverse.num },
}

impl<S: Surface> PolygonArea<S> {
    // A polygon with no points yet.
    pub fn new(surface: S, winding: Winding) -> PolygonArea<S>
        ensures surface { result.surface ≡ surface }
        ensures winding { result.winding ≡ winding }
        ensures traverse { result.traverse ≡ begun }
        ensures examples { Examples }
    {
        PolygonArea {
            surface,
            winding,
            traverse: Traverse::default(),
        }
    }

    // The traverse with one more point: the first one, or one at the end of an edge from the
    // latest.
    fn fed(&self, point: Point) -> Traverse
        requires { self.now.traverse.num < 4294967295 }
        ensures value { result ≡ fed (S.edges self.now.surface) self.now.traverse point }
        ensures few { unsigned_abs result.crossings ≤ result.num }
    {
        let old = self.traverse;
        let num = old.num + 1;
        if old.num == 0 {
            return Traverse {
                num,
                initial: point,
                latest: point,
                ..old
            };
        }
        let edge = self
            .surface
            .edge(old.latest.lat, old.latest.lon, point.lat, point.lon);
        Traverse {
            num,
            areasum: old.areasum + edge.S12,
            perimetersum: old.perimetersum + edge.s12,
            crossings: old.crossings + transit(old.latest.lon, point.lon),
            latest: point,
            ..old
        }
    }

    // One more point. Refused where the point is not accepted, and where 2^32 - 1 points were
    // given; then nothing changes.
    pub fn add_point(&mut self, lat: f64, lon: f64) -> Result<(), Refusal>
        ensures answer { result_err result ≡ point_refusal self.old.traverse.num lat lon }
        ensures traverse { self.new.traverse ≡ offered (S.edges self.old.surface) self.old.traverse lat lon }
        ensures surface { self.new.surface ≡ self.old.surface }
        ensures winding { self.new.winding ≡ self.old.winding }
    {
        if !accepted(lat, lon) {
            return Err(Refusal::Point);
        }
        if self.traverse.num == u32::MAX {
            return Err(Refusal::Full);
        }
        self.traverse = self.fed(Point { lat, lon });
        Ok(())
    }

    // The perimeter, the area and the count of the polygon, closed by the edge from its latest
    // point to its first. An area with `sign` may be negative, which says that the polygon is
    // wound the other way or covers more than half of the surface.
    pub fn compute(self, sign: bool) -> Figures
    where
        S: Drop,
        ensures value { result ≡ closed (S.edges self.surface) (S.whole self.surface) self.winding sign self.traverse }
        ensures polygon { (points : List Point) → self.traverse ≡ fed_all (S.edges self.surface) begun points → result ≡ figures_of (S.edges self.surface) (S.whole self.surface) self.winding sign points }
        ensures area_law { (points : List Point) → self.traverse ≡ fed_all (S.edges self.surface) begun points → PolygonLaw (S.edges self.surface) (S.whole self.surface) self.winding sign points result.area }
    {
        self.traverse.closed(&self.surface, self.winding, sign).0
    }
}

impl Traverse {
    // The figures with the edge from the latest point to the first, and how many evaluations that
    // edge took.
    pub fn closed<S: Surface>(&self, surface: &S, winding: Winding, sign: bool) -> (Figures, u8)
        ensures value { result.0 ≡ closed (S.edges surface.now) (S.whole surface.now) winding sign self.now }
        ensures polygon { (points : List Point) → self.now ≡ fed_all (S.edges surface.now) begun points → result.0 ≡ figures_of (S.edges surface.now) (S.whole surface.now) winding sign points }
        ensures area_law { (points : List Point) → self.now ≡ fed_all (S.edges surface.now) begun points → PolygonLaw (S.edges surface.now) (S.whole surface.now) winding sign points result.0.area }
        ensures evaluations { result.1 ≡ (closing (S.edges surface.now) self.now).evaluations }
    {
        let last = self.latest;
        let first = self.initial;
        let edge = surface.edge(last.lat, last.lon, first.lat, first.lon);
        // Only whether they are odd tells, so that the sum needs no bound.
        let crossings = self.crossings % 2 + transit(last.lon, first.lon);
        let areasum = self.areasum + edge.S12;
        let figures = Figures {
            perimeter: self.perimetersum + edge.s12,
            area: reduce_area(surface.area(), areasum, crossings, winding, sign),
            count: self.num,
        };
        (figures, edge.evaluations)
    }
}
