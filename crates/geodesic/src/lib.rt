// Geodesics on an ellipsoid with a function set: the calls, and the ellipsoid as a surface.
#![tactic(auto)]

mod calls;
mod model;

pub use calls::accept_both;
pub use ellipsoid::{Ellipsoid, capability};
pub use inverse::{Bearings, Directions, Inverse};
pub use model::Geodesic;
