// The problem that is solved for the azimuth at the first point.
use ellipsoid::latitudes::{Difference, Ends};
use ellipsoid::shape::Ellipsoid;

// The functions to reckon with, the ellipsoid, and the two points by the ends on the auxiliary sphere
// and the longitude difference.
#[derive_where(Clone, Copy)]
#[derive(Debug, PartialEq)]
pub struct Problem<'a, F> {
    pub set: &'a F,
    pub shape: &'a Ellipsoid,
    pub ends: Ends,
    pub difference: Difference,
}
