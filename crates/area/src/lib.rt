// The last step of a polygon's area: the rounded sum of its edge areas, together with the number
// of times its edges cross the prime meridian, becomes the area on the whole surface.
#![tactic(auto)]

ghost use Rattle.std.specs.Prelude.{◌≡◌};
ghost use Rattle.area.specs.AreaLaw.{AreaLaw};
ghost use Rattle.area.specs.Reduction.{reversed, is_odd, crossed, turned, placed, reduced_area};

use floats::rem;

/// The sense in which a polygon with a positive area is traversed.
#[derive(Clone, Copy, PartialEq, Eq, Hash, Debug)]
pub enum Winding {
    Clockwise,
    CounterClockwise,
}

impl Winding {
    /// The other sense.
    pub fn reversed(self) -> Winding
        ensures { result ≡ reversed self }
    {
        match self {
            Winding::Clockwise => Winding::CounterClockwise,
            Winding::CounterClockwise => Winding::Clockwise,
        }
    }
}

// Whether the edges cross the prime meridian an odd number of times, so that the polygon
// surrounds a pole.
fn odd(crossings: i64) -> bool
    ensures { result ≡ is_odd crossings }
{
    crossings % 2 != 0
}

// Half of the whole area is added or taken off, towards zero, where a pole is surrounded.
fn cross(whole: f64, area: f64, pole: bool) -> f64
    ensures { result ≡ crossed whole pole area }
{
    if pole {
        if area < 0.0 {
            area + whole / 2.0
        } else {
            area - whole / 2.0
        }
    } else {
        area
    }
}

// The sum has the clockwise sense: it is negated for the other.
fn turn(area: f64, winding: Winding) -> f64
    ensures { result ≡ turned winding area }
{
    match winding {
        Winding::Clockwise => area,
        Winding::CounterClockwise => -area,
    }
}

// A signed area lies above minus half of the whole area and up to half of it. A negative unsigned
// one is that of a polygon larger than half of the surface.
fn place(whole: f64, area: f64, signed: bool) -> f64
    ensures { result ≡ placed whole signed area }
{
    if signed {
        if area > whole / 2.0 {
            area - whole
        } else if area <= -whole / 2.0 {
            area + whole
        } else {
            area
        }
    } else if area < 0.0 {
        area + whole
    } else {
        area
    }
}

/// The area of a polygon whose edge areas have the rounded sum `sum` and whose edges cross the
/// prime meridian `crossings` times, on a surface of the area `whole`. Where `sum` is not finite,
/// the answer is NaN. The winding is the polygon's own, `signed` is told with each question.
#[tactic(auto, using(crate::proofs::Law::area_law), unfolding(crate::specs::Reduction::reduced_area))]
pub fn reduce_area(whole: f64, sum: f64, crossings: i64, winding: Winding, signed: bool) -> f64
    ensures value { result ≡ reduced_area whole winding signed (is_odd crossings) sum }
    ensures law { AreaLaw whole winding signed (is_odd crossings) sum result }
{
    let area = cross(whole, rem(sum, whole), odd(crossings));
    place(whole, turn(area, winding), signed)
}

#[cfg(test)]
mod tests {
    use super::*;

    // The area of the Earth's ellipsoid (WGS84).
    const EARTH: f64 = 510065621724089.44;

    #[test]
    fn surface_of_eight(rt: HostRuntime) {
        assert_eq!(rt;
            reduce_area(8.0, 3.0, 0, Winding::CounterClockwise, true),
            -3.0
        );
        assert_eq!(rt;
            reduce_area(8.0, 3.0, 0, Winding::CounterClockwise, false),
            5.0
        );
        assert_eq!(rt;
            reduce_area(8.0, 3.0, 1, Winding::CounterClockwise, true),
            1.0
        );
        assert_eq!(rt;
            reduce_area(8.0, 3.0, -1, Winding::CounterClockwise, false),
            1.0
        );
        assert_eq!(rt;
            reduce_area(8.0, 4.0, 2, Winding::CounterClockwise, true),
            4.0
        );
        assert_eq!(rt; reduce_area(8.0, -4.0, 0, Winding::Clockwise, true), 4.0);
    }

    #[test]
    fn earth(rt: HostRuntime) {
        assert_eq!(rt;
            reduce_area(EARTH, -0.016443, 0, Winding::Clockwise, false),
            EARTH
        );
        assert_eq!(rt;
            reduce_area(EARTH, 1e15, -3, Winding::Clockwise, true),
            234901567413865.84
        );
        assert_eq!(rt;
            reduce_area(EARTH, -1.2345e14, 1, Winding::CounterClockwise, false),
            378482810862044.75
        );
        assert!(rt; reduce_area(EARTH, f64::INFINITY, 0, Winding::Clockwise, true).is_nan());
    }
}
