// Figures that a mask wants.
ghost use Rattle.std.specs.Prelude.{◌≡◌, true, false};
ghost use Rattle.geomath.specs.Angles.{not_a_number};
ghost use Rattle.ellipsoid.specs.Capabilities.{wants};

use ellipsoid::capability::wanted;

// A figure where it is wanted; NaN, as the crate answers what the mask does not want.
pub(crate) fn wanted_or_nan<G: FnOnce() -> f64>(mask: u64, figure: u64, reckon: G) -> f64
    requires { G.pre reckon }
    ensures given { wants mask figure ≡ true → G.post reckon result }
    ensures none { wants mask figure ≡ false → result ≡ not_a_number }
{
    if wanted(mask, figure) {
        reckon()
    } else {
        f64::NAN
    }
}
