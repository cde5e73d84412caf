// An outline that can be edited: its points stand in a row of stations, and its edits in a row of
// edit records, both in the caller's storage and handed to each call.
#![tactic(auto)]

mod calls;
mod outlines;
mod replays;
mod sums;

pub use history::{Answer, Call, Done, Measurement};
pub use outlines::Outline;
pub use replays::replay;
pub use stations::{Cost, EditRecord, Station};
