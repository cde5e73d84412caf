// What an outline keeps.
ghost use Rattle.std.specs.Prelude.{◌≤◌};

use history::Frame;

// An outline on a surface: its winding, the lengths of its two rows, at most 4,096 and 1,024, and
// how many stations and edit records they hold, which are no more than there are slots.
#[derive(Drop, PartialEq, Debug)]
pub struct Outline<S> {
    pub(crate) surface: S,
    pub(crate) frame: Frame,
    ghost stations_bound: { frame.lengths.stations ≤ 4096 },
    ghost edits_bound: { frame.lengths.edits ≤ 1024 },
    ghost stations_held: { frame.counts.stations ≤ frame.lengths.stations },
    ghost edits_held: { frame.counts.edits ≤ frame.lengths.edits },
}
