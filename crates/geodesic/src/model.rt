// An ellipsoid with the function set that its geodesics are reckoned with.
ghost use Rattle.std.specs.Prelude.{◌≡◌, true};
ghost use Rattle.surface.specs.Wholes.{whole_fits};
ghost use Rattle.ellipsoid.specs.Ellipsoids.{whole_of};

use ellipsoid::shape::Ellipsoid;

// The whole area of the ellipsoid is finite and at least 2^-1021.
#[derive(Debug, Drop, PartialEq)]
pub struct Geodesic<F> {
    pub(crate) set: F,
    pub(crate) shape: Ellipsoid,
    ghost fits: { whole_fits (whole_of shape) ≡ true },
}
