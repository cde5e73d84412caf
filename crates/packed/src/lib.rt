// Packed sheets: the edits of an outline as a file of bits.
#![tactic(auto)]

mod bits;
mod faults;
mod packs;
mod sheets;

pub use faults::{BitFault, EditFault, FieldFault, Layer, SheetFault, Told, in_edit};
pub use packs::{MOST_PLACE, PackFault, pack};
pub use sheets::{Edit, HEADER_BITS, Header, SurfaceKind, read_edit, read_end, read_header};
