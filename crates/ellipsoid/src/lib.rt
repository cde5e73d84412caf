// An ellipsoid of revolution: its constants, the expansions of its integrals, the ends of a geodesic
// on the auxiliary sphere, and the lengths along an arc between them.
#![tactic(auto)]

pub mod arcs;
pub mod capability;
pub mod expansions;
pub mod latitudes;
pub mod lengths;
pub mod shape;
mod tables;

pub use shape::Ellipsoid;
