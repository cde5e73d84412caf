// Surfaces on which outlines are drawn: what an edge is, what a surface answers, why a call is
// refused, and the plate carrée.
#![tactic(auto)]

ghost use Rattle.std.specs.Prelude.{◌≡◌, ◌≤◌, true, Float};
ghost use Rattle.surface.specs.declared.Edge.{Edge};
ghost use Rattle.surface.specs.Wholes.{whole_fits};

mod plates;
mod refusals;

pub use plates::Plate;
pub use refusals::{Refusal, accept};

// An edge between two points: its length, the area between it and the equator, and how many
// evaluations of the longitude equation it took.
#[derive(Clone, Copy, PartialEq, Debug)]
pub struct Edge {
    pub s12: f64,
    pub S12: f64,
    pub evaluations: u8,
}

// 2^-1021: from here on half of an area is exact.
const LEAST_WHOLE: f64 = 4.450147717014403e-308;

// Whether an area can be a surface's whole area: finite and at least 2^-1021.
pub fn whole_fits(area: f64) -> bool
    ensures { result ≡ whole_fits area }
{
    area.is_finite() && area >= LEAST_WHOLE
}

// A surface: a function from the two ends of an edge to the edge, and a whole area. Neither call
// refuses or changes anything.
pub trait Surface {
    ghost edges: { Self → Float → Float → Float → Float → Edge };

    ghost whole: { Self → Float };

    // The edge from (lat1, lon1) to (lat2, lon2), in the order of the crate's arguments.
    fn edge(&self, lat1: f64, lon1: f64, lat2: f64, lon2: f64) -> Edge
        ensures { result ≡ edges self.now lat1 lon1 lat2 lon2 };

    // The whole area, finite and at least 2^-1021.
    fn area(&self) -> f64
        ensures { result ≡ whole self.now };

    ghost fits: { (s : Self) → whole_fits (whole s) ≡ true };

    // 83 is the most that the search in `azimuth`, which stands above, makes for an edge.
    ghost few: { (s : Self) (lat1 lon1 lat2 lon2 : Float) → (edges s lat1 lon1 lat2 lon2).evaluations ≤ 83 };
}
