// The series set: the seven functions by their series.
ghost use Rattle.functions.specs.Series.{series};

use crate::{FunctionSet, arcs, circle, cube_root, lengths};

#[derive(Clone, Copy, PartialEq, Eq, Hash, Debug, Default)]
pub struct SeriesSet;

impl FunctionSet for SeriesSet {
    ghost funcs = { λ _. series };

    fn sin(&self, x: f64) -> f64 {
        circle::sine(x)
    }

    fn cos(&self, x: f64) -> f64 {
        circle::cosine(x)
    }

    fn atan2(&self, y: f64, x: f64) -> f64 {
        arcs::angle(y, x)
    }

    fn atan(&self, x: f64) -> f64 {
        arcs::arc_tangent(x)
    }

    fn atanh(&self, x: f64) -> f64 {
        arcs::area_tangent(x)
    }

    fn hypot(&self, x: f64, y: f64) -> f64 {
        lengths::hypotenuse(x, y)
    }

    fn cbrt(&self, x: f64) -> f64 {
        cube_root::cube_root(x)
    }
}
