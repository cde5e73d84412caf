// Edit records: what is noted of an edit, so that it can be taken back.
ghost use Rattle.std.specs.Prelude.{◌≡◌};
ghost use Rattle.stations.specs.Records.{KindOf, KindIfFit, code_of, record_of, add_record, move_record, drop_record, old_point, fits_outline, noted, noted_count};

use geomath::accepted;
use polygon::Point;
use rows::{put_in, take_out};

// What an edit did. The numbers are those of the records; in a file edits are numbered from 0, with
// take back among them.
#[derive(Clone, Copy, PartialEq, Eq, Debug, Hash)]
pub enum EditKind {
    Add = 1,
    Move = 2,
    Drop = 3,
}

// A number that no kind of edit has.
#[derive(Clone, Copy, PartialEq, Eq, Debug, Hash)]
pub struct UnknownKind(pub u8);

impl From<EditKind> for u8 {
    ghost from_gives = { λ kind number. number ≡ code_of kind };

    fn from(kind: EditKind) -> u8 {
        kind as u8
    }
}

impl TryFrom<u8> for EditKind {
    type Error = UnknownKind;

    ghost try_from_gives = { KindOf };

    fn try_from(number: u8) -> Result<EditKind, UnknownKind> {
        match number {
            1 => Ok(EditKind::Add),
            2 => Ok(EditKind::Move),
            3 => Ok(EditKind::Drop),
            _ => Err(UnknownKind(number)),
        }
    }
}

// What was edited: its kind, its place counted from 0, and the point as it was before; 0.0 and 0.0
// for an add, since C lays out one struct for all kinds. The kind is a number, since a row that C
// hands in may hold any.
#[derive(Clone, Copy, PartialEq, Debug)]
#[repr(C)]
pub struct EditRecord {
    pub kind: u8,
    pub place: u16,
    pub lat: f64,
    pub lon: f64,
}

impl EditRecord {
    // An edit of this kind at `place`, where `old` stood before.
    fn of(kind: EditKind, place: u16, old: Point) -> EditRecord
        ensures { result ≡ record_of kind place old }
    {
        EditRecord {
            kind: kind.into(),
            place,
            lat: old.lat,
            lon: old.lon,
        }
    }

    // A point was added at `place`.
    pub fn added(place: u16) -> EditRecord
        ensures { result ≡ add_record place }
    {
        EditRecord::of(EditKind::Add, place, Point::default())
    }

    // The point at `place` was moved from `old`.
    pub fn moved(place: u16, old: Point) -> EditRecord
        ensures { result ≡ move_record place old }
    {
        EditRecord::of(EditKind::Move, place, old)
    }

    // The point `old` was dropped from `place`.
    pub fn dropped(place: u16, old: Point) -> EditRecord
        ensures { result ≡ drop_record place old }
    {
        EditRecord::of(EditKind::Drop, place, old)
    }

    // The point as it was before the edit.
    pub fn old(&self) -> Point
        ensures { result ≡ old_point self.now }
    {
        Point {
            lat: self.lat,
            lon: self.lon,
        }
    }

    // The kind of the edit, where it can be taken back in an outline of `count` points, in a row of
    // `room` slots.
    pub fn fits(&self, count: usize, room: usize) -> Option<EditKind>
        ensures { KindIfFit count room self.now result }
    {
        let place = self.place as usize;
        let kind = EditKind::try_from(self.kind).ok()?;
        let fits = match kind {
            EditKind::Add => place + 1 == count,
            EditKind::Move => place < count && accepted(self.lat, self.lon),
            EditKind::Drop => place <= count && count < room && accepted(self.lat, self.lon),
        };
        fits.then_some(kind)
    }
}

// Notes one more record after the first `count`, and answers how many are held then. In a full
// row the oldest makes room; a row of no slots stays as it is. The row and its count are parameters,
// as they are of `put_in`.
pub fn note(edits: &mut [EditRecord], count: usize, edit: EditRecord) -> usize
    ensures row { edits.new ≡ noted edits.old count edit }
    ensures count { result ≡ noted_count edits.old count }
{
    let room = edits.len();
    if count < room {
        put_in(edits, count, count, edit);
        return count + 1;
    }
    take_out(edits, room, 0);
    let last = room.saturating_sub(1);
    put_in(edits, last, last, edit);
    room
}
