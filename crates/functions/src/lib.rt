// Function sets: the interface of the seven elementary functions that the geodesic code calls, and
// a set of them by series.
#![tactic(auto)]

mod arcs;
mod circle;
mod cube_root;
mod lengths;
mod series;

ghost use Rattle.std.specs.Prelude.{◌≡◌};
ghost use Rattle.functions.specs.Sets.{Funcs};

pub use series::SeriesSet;

// Seven functions of the argument values, +0 and -0 told apart. Each call answers the value, refuses
// nothing and changes nothing.
pub trait FunctionSet {
    ghost funcs: { Self → Funcs };

    fn sin(&self, x: f64) -> f64
        ensures { result ≡ (funcs self.now).sin_of x };

    fn cos(&self, x: f64) -> f64
        ensures { result ≡ (funcs self.now).cos_of x };

    // The angle of the point (x, y).
    fn atan2(&self, y: f64, x: f64) -> f64
        ensures { result ≡ (funcs self.now).atan2_of y x };

    fn atan(&self, x: f64) -> f64
        ensures { result ≡ (funcs self.now).atan_of x };

    fn atanh(&self, x: f64) -> f64
        ensures { result ≡ (funcs self.now).atanh_of x };

    fn hypot(&self, x: f64, y: f64) -> f64
        ensures { result ≡ (funcs self.now).hypot_of x y };

    fn cbrt(&self, x: f64) -> f64
        ensures { result ≡ (funcs self.now).cbrt_of x };
}
