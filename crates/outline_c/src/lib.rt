// The library for programs in C and Rust: outlines in rows of the caller's storage, packed sheets, and
// the inverse problem on the WGS84 ellipsoid. `include/outline.h` declares the exports.
#![tactic(auto)]

mod edits;
mod faults;
mod figures;
mod grounds;
mod kept;
mod sheets;

pub use edits::{
    outline_add, outline_drop, outline_move, outline_open_plate, outline_open_wgs84,
    outline_take_back,
};
pub use figures::{InverseFigures, outline_inverse, outline_measure};
pub use kept::KeptOutline;
pub use sheets::{ToldFault, outline_draw};
