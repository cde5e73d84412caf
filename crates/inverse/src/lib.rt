// The inverse problem on an ellipsoid, over any function set: the geodesic between two points.
#![tactic(auto)]

pub mod area_term;
pub mod canonical;
pub mod paths;
pub mod problem;
pub mod task;
mod wanted;

pub use problem::{_gen_inverse, _gen_inverse_azi, Bearings, Directions, Inverse};
