// Reading the header and the edits of a sheet, and its end.
ghost use Rattle.std.specs.Prelude.{◌≡◌, ◌+◌, ◌%◌, ◌≤◌};
ghost use Rattle.packed.specs.Examples.{Examples};
ghost use Rattle.packed.specs.Numbers.{FieldsAreNumbers};
ghost use Rattle.packed.specs.Bits.{field_at, Moves};
ghost use Rattle.packed.specs.Packing.{surface_bits};
ghost use Rattle.packed.specs.Sheets.{header_of, edit_at, edit_of, end_of, first_one, add_at, move_at, drop_at, point_at, winding_of, surface_of, kind_bits, Reads};

use crate::bits::{BitReader, MOST_BITS, bit_at};
use crate::{BitFault, FieldFault};
use area::Winding;
use std::num::f64_from_bits_with_nan;

// The surface on which a sheet is drawn. The numbers are those of a file; C has an enum of its own,
// with its own numbers.
#[derive(Clone, Copy, PartialEq, Eq, Debug, Hash)]
pub enum SurfaceKind {
    // the ellipsoid WGS84, on the series set of functions
    Wgs84 = 0,
    // the plate whose degrees are 1 long
    Plate = 1,
}

// What stands before a sheet's edits, field by field as in the file.
#[derive(Clone, Copy, PartialEq, Eq, Debug, Hash)]
pub struct Header {
    pub winding: Winding,
    pub signed: bool,
    pub surface: SurfaceKind,
    pub edits: u16,
}

// An edit of a sheet, field by field as in the file: unlike a call of `history` it has a place of at
// most 16 bits, and none measures. Latitude and longitude are two fields, with no `Point` of
// `polygon`, which reading and writing files do not need.
#[derive(Clone, Copy, PartialEq, Debug)]
pub enum Edit {
    Add { lat: f64, lon: f64 },
    Move { place: u16, lat: f64, lon: f64 },
    Drop { place: u16 },
    TakeBack,
}

// The kind of an edit, which its first two bits write: numbered from 0, and with the take back that
// leaves no record in the kinds of `stations`.
#[derive(Clone, Copy, PartialEq, Eq, Debug, Hash)]
pub(crate) enum EditKind {
    Add = 0,
    Move = 1,
    Drop = 2,
    TakeBack = 3,
}

impl From<EditKind> for u64 {
    ghost from_gives = { λ kind r. r ≡ kind_bits kind };

    fn from(kind: EditKind) -> u64 {
        kind as u64
    }
}

// The last two binary digits of a number write a kind.
impl From<u64> for EditKind {
    ghost from_gives = { λ number r. kind_bits r ≡ number % 4 };

    fn from(number: u64) -> EditKind {
        match number % 4 {
            0 => EditKind::Add,
            1 => EditKind::Move,
            2 => EditKind::Drop,
            _ => EditKind::TakeBack,
        }
    }
}

impl From<SurfaceKind> for u64 {
    ghost from_gives = { λ surface r. r ≡ surface_bits surface };

    fn from(surface: SurfaceKind) -> u64 {
        surface as u64
    }
}

impl TryFrom<u64> for SurfaceKind {
    type Error = FieldFault;

    ghost try_from_gives = { λ kind r. r ≡ surface_of kind };

    fn try_from(kind: u64) -> Result<SurfaceKind, FieldFault> {
        match kind {
            0 => Ok(SurfaceKind::Wgs84),
            1 => Ok(SurfaceKind::Plate),
            _ => Err(FieldFault::Surface),
        }
    }
}

// The edition that is read and written.
pub(crate) const EDITION: u64 = 1;

// How many bits the fields take: the header's edition, its two bits, its surface and its number of
// edits; a kind, a place and a float of an edit.
pub(crate) const EDITION_WIDTH: usize = 4;

pub(crate) const BIT_WIDTH: usize = 1;

pub(crate) const SURFACE_WIDTH: usize = 2;

pub(crate) const COUNT_WIDTH: usize = 16;

pub(crate) const KIND_WIDTH: usize = 2;

pub(crate) const PLACE_WIDTH: usize = 12;

pub(crate) const FLOAT_WIDTH: usize = 64;

// The bit at which a header ends and the edits begin.
pub const HEADER_BITS: usize = EDITION_WIDTH + 2 * BIT_WIDTH + SURFACE_WIDTH + COUNT_WIDTH;

// The winding of the header's bit. No `From` of `area`: the number is the file's, and `area` knows
// no file.
fn winding_of(bit: u64) -> Winding
    ensures { result ≡ winding_of bit }
{
    if bit == 0 {
        Winding::Clockwise
    } else {
        Winding::CounterClockwise
    }
}

// The header, which takes the first 24 bits.
#[tactic(auto, using(crate::proofs::Numbers::fields_are_numbers, crate::proofs::Examples::examples), unfolding(crate::specs::Sheets::header_of))]
pub fn read_header(bytes: &[u8]) -> Result<Header, FieldFault>
    ensures header { result ≡ header_of bytes.now }
    ensures fields { FieldsAreNumbers }
    ensures examples { Examples }
{
    let mut reader = BitReader { bytes, at: 0 };
    let edition = reader.field(EDITION_WIDTH)?;
    if edition != EDITION {
        return Err(FieldFault::Edition);
    }
    let winding = reader.field(BIT_WIDTH)?;
    let signed = reader.field(BIT_WIDTH)?;
    let kind = reader.field(SURFACE_WIDTH)?;
    let surface = SurfaceKind::try_from(kind)?;
    let edits = reader.field(COUNT_WIDTH)?;
    Ok(Header {
        winding: winding_of(winding),
        signed: signed == 1,
        surface,
        edits: edits as u16,
    })
}

impl BitReader<'_> {
    // A place.
    fn place(&mut self) -> Result<u16, BitFault>
        ensures value { result ≡ field_at self.old.bytes.now self.old.at PLACE_WIDTH }
        ensures moves { Moves self.old PLACE_WIDTH result self.new }
    {
        let place = self.field(PLACE_WIDTH)?;
        Ok(place as u16)
    }

    // A latitude and a longitude.
    #[tactic(auto, unfolding(crate::specs::Sheets::point_at))]
    fn point(&mut self) -> Result<(f64, f64), BitFault>
        ensures value { result ≡ point_at self.old.bytes.now self.old.at }
        ensures moves { Moves self.old 128 result self.new }
    {
        let lat = self.field(FLOAT_WIDTH)?;
        let lon = self.field(FLOAT_WIDTH)?;
        Ok((f64_from_bits_with_nan(lat), f64_from_bits_with_nan(lon)))
    }

    // An added point: latitude and longitude.
    #[tactic(auto, unfolding(crate::specs::Sheets::add_at))]
    fn add(&mut self) -> Result<Edit, BitFault>
        ensures { Reads (add_at self.old.bytes.now self.old.at) result self.new.at }
    {
        let (lat, lon) = self.point()?;
        Ok(Edit::Add { lat, lon })
    }

    // A moved point: its place, then latitude and longitude.
    #[tactic(auto, unfolding(crate::specs::Sheets::move_at))]
    fn moved(&mut self) -> Result<Edit, BitFault>
        ensures { Reads (move_at self.old.bytes.now self.old.at) result self.new.at }
    {
        let place = self.place()?;
        let (lat, lon) = self.point()?;
        Ok(Edit::Move { place, lat, lon })
    }

    // A dropped point: its place.
    #[tactic(auto, unfolding(crate::specs::Sheets::drop_at))]
    fn dropped(&mut self) -> Result<Edit, BitFault>
        ensures { Reads (drop_at self.old.bytes.now self.old.at) result self.new.at }
    {
        let place = self.place()?;
        Ok(Edit::Drop { place })
    }

    // An edit: its kind, and what follows it.
    #[tactic(auto, unfolding(crate::specs::Sheets::edit_at))]
    fn edit(&mut self) -> Result<Edit, BitFault>
        ensures { Reads (edit_at self.old.bytes.now self.old.at) result self.new.at }
    {
        let kind = self.field(KIND_WIDTH)?;
        match EditKind::from(kind) {
            EditKind::Add => self.add(),
            EditKind::Move => self.moved(),
            EditKind::Drop => self.dropped(),
            EditKind::TakeBack => Ok(Edit::TakeBack),
        }
    }
}

// The edit that begins at bit `at`, and the bit at which the next begins.
#[tactic(auto, unfolding(crate::specs::Sheets::edit_of))]
pub fn read_edit(bytes: &[u8], at: usize) -> Result<(Edit, usize), FieldFault>
    ensures { result ≡ edit_of bytes.now at }
{
    let mut reader = BitReader { bytes, at };
    let edit = reader.edit()?;
    Ok((edit, reader.at))
}

// The first of `count` bits from `at` on that is one.
fn first_one(bytes: &[u8], at: usize, count: usize) -> Option<usize>
    requires { at + count ≤ MOST_BITS }
    ensures { result ≡ first_one bytes.now at count }
{
    (at..at + count).find(|&k| bit_at(bytes, k) == 1)
}

// The end of a sheet whose edits end at bit `at`: zeros fill the last byte, and nothing follows.
#[tactic(auto, unfolding(crate::specs::Sheets::end_of))]
pub fn read_end(bytes: &[u8], at: usize) -> Result<(), FieldFault>
    ensures { result ≡ end_of bytes.now at }
{
    let fill = (8 - at % 8) % 8;
    let mut reader = BitReader { bytes, at };
    reader.field(fill)?;
    if let Some(bit) = first_one(bytes, at, fill) {
        return Err(FieldFault::Fill { bit });
    }
    if at + fill < 8 * bytes.len() {
        return Err(FieldFault::Surplus { bit: at + fill });
    }
    Ok(())
}
