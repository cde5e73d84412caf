// The azimuth at the first of two points, over any function set: the start from the great circle or the
// astroid problem, the longitude equation, and Newton's method for its root.
#![tactic(auto)]

pub mod lambda;
pub mod newton;
pub mod problem;
pub mod start;

pub use problem::Problem;
