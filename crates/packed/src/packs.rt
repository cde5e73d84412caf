// Writing a packed sheet.
ghost use Rattle.std.specs.Prelude.{◌≡◌, ◌+◌, ◌*◌, ◌<◌, ◌≤◌, ◌⊎◌, [], ◌∷◌, length, replicate, IfOk, Some, Ok, Err, vec_len, MatchResult, OnOk};
ghost use Rattle.std.specs.List.{AllByRecursion};
ghost use Rattle.packed.specs.declared.packs.PackFault.TheVariants.{NoMemory};
ghost use Rattle.packed.specs.Packing.{digits_of, point_digits, edit_digits, edits_digits, header_digits, width_of, place_of, packed_end, place_fits, FloatsFit, Fitting, packed_sheet, ReadsBack, winding_bit, HasRoom, Writes, pack_fault_text};

use crate::bits::{BitWriter, MOST_BITS, MOST_BYTES};
use crate::sheets::{
    BIT_WIDTH, COUNT_WIDTH, EDITION, EDITION_WIDTH, EditKind, FLOAT_WIDTH, KIND_WIDTH, PLACE_WIDTH,
    SURFACE_WIDTH,
};
use crate::{Edit, HEADER_BITS, Header};
use area::Winding;
use std::alloc::{AllocError, Global};
use std::error::Error;
use std::fmt;
use std::num::f64_to_bits_with_nan;

// Why a sheet is not packed.
#[derive(Clone, Copy, PartialEq, Eq, Debug, Hash)]
pub enum PackFault {
    // the header has another number of edits
    Count,
    // a place is above 4,095
    Place,
    // the file would have more than 65,536 bytes
    TooLong,
    // there is no memory for the file
    NoMemory,
}

impl fmt::Display for PackFault {
    ghost output = { λ fault. Some (pack_fault_text fault) };

    fn fmt<W: fmt::Write>(&self, f: &mut fmt::Formatter<W>) -> fmt::Result {
        f.write_str(match self {
            PackFault::Count => "another number of edits",
            PackFault::Place => "a place above 4095",
            PackFault::TooLong => "a sheet of more than 65536 bytes",
            PackFault::NoMemory => "no memory",
        })
    }
}

impl Error for PackFault {}

impl From<AllocError> for PackFault {
    ghost from_gives = { λ _ r. r ≡ NoMemory };

    fn from(_error: AllocError) -> PackFault {
        PackFault::NoMemory
    }
}

// The greatest place that its field holds.
pub const MOST_PLACE: u16 = (1 << PLACE_WIDTH) - 1;

// The bit of a winding. No `From` of `area`: the number is the file's, and `area` knows no file.
fn winding_bit(winding: Winding) -> u64
    ensures { result ≡ winding_bit winding }
{
    match winding {
        Winding::Clockwise => 0,
        Winding::CounterClockwise => 1,
    }
}

impl Edit {
    // The place of a moved or dropped point.
    fn place(self) -> Option<u16>
        ensures { result ≡ place_of self }
    {
        match self {
            Edit::Move { place, .. } | Edit::Drop { place } => Some(place),
            Edit::Add { .. } | Edit::TakeBack => None,
        }
    }

    // How many bits the edit takes.
    fn width(self) -> usize
        ensures { result ≡ width_of self }
    {
        match self {
            Edit::Add { .. } => KIND_WIDTH + 2 * FLOAT_WIDTH,
            Edit::Move { .. } => KIND_WIDTH + PLACE_WIDTH + 2 * FLOAT_WIDTH,
            Edit::Drop { .. } => KIND_WIDTH + PLACE_WIDTH,
            Edit::TakeBack => KIND_WIDTH,
        }
    }

    // Whether the edit's place fits its field; its floats are always the language's.
    fn fits(self) -> bool
        ensures value { result ≡ place_fits self }
        ensures floats { FloatsFit self }
    {
        self.place().is_none_or(|place| place <= MOST_PLACE)
    }
}

// The bit at which the edits end.
fn edits_end(edits: &[Edit]) -> Result<usize, PackFault>
    ensures end { result ≡ packed_end HEADER_BITS edits.now }
    ensures near { IfOk result (λ end. (end ≤ MOST_BITS) × (end ≡ HEADER_BITS + length (edits_digits edits.now))) }
    ensures fitting { OnOk result (AllByRecursion Fitting edits.now) }
{
    let mut at = HEADER_BITS;
    for edit in edits {
        if !edit.fits() {
            return Err(PackFault::Place);
        }
        at += edit.width();
        if at > MOST_BITS {
            return Err(PackFault::TooLong);
        }
    }
    Ok(at)
}

impl BitWriter {
    // So many bytes, all zero.
    fn blank(heap: Global, count: usize) -> Result<BitWriter, AllocError>
        requires { count ≤ MOST_BYTES }
        ensures { IfOk result (λ w. (w.bytes.items ≡ replicate count 0) × (w.at ≡ 0) × (vec_len w.bytes ≡ count)) }
    {
        Ok(BitWriter {
            bytes: vec![in heap; 0; count]?,
            at: 0,
        })
    }

    // Sets the next digit.
    fn digit(&mut self, digit: u8)
        requires room { HasRoom self.old 1 }
        requires binary { digit < 2 }
        ensures { Writes self.old (digit ∷ []) self.new }
    {
        self.bytes[self.at / 8] |= digit << (7 - self.at % 8);
        self.at += 1;
    }

    // Sets the last `width` digits of a number.
    fn field(&mut self, width: usize, number: u64)
        requires room { HasRoom self.old width }
        requires small { width ≤ 64 }
        ensures writes { Writes self.old (digits_of width number) self.new }
        ensures next { self.new.at ≡ self.old.at + width }
    {
        for i in (0..width).rev() {
            self.digit(((number >> i) % 2) as u8);
        }
    }

    // Sets a latitude and a longitude: two fields of the file, as in `Edit`.
    fn point(&mut self, lat: f64, lon: f64)
        requires { HasRoom self.old (2 * FLOAT_WIDTH) }
        ensures { Writes self.old (point_digits lat lon) self.new }
    {
        self.field(FLOAT_WIDTH, f64_to_bits_with_nan(lat));
        self.field(FLOAT_WIDTH, f64_to_bits_with_nan(lon));
    }

    // Sets an edit.
    fn edit(&mut self, edit: Edit)
        requires { HasRoom self.old (width_of edit) }
        ensures { Writes self.old (edit_digits edit) self.new }
    {
        match edit {
            Edit::Add { lat, lon } => {
                self.field(KIND_WIDTH, EditKind::Add.into());
                self.point(lat, lon);
            }
            Edit::Move { place, lat, lon } => {
                self.field(KIND_WIDTH, EditKind::Move.into());
                self.field(PLACE_WIDTH, place.into());
                self.point(lat, lon);
            }
            Edit::Drop { place } => {
                self.field(KIND_WIDTH, EditKind::Drop.into());
                self.field(PLACE_WIDTH, place.into());
            }
            Edit::TakeBack => self.field(KIND_WIDTH, EditKind::TakeBack.into()),
        }
    }

    // Sets the edits, each where the one before it ends.
    fn edits(&mut self, edits: &[Edit])
        requires { HasRoom self.old (length (edits_digits edits.now)) }
        ensures { Writes self.old (edits_digits edits.now) self.new }
    {
        for edit in edits {
            self.edit(*edit);
        }
    }

    // Sets the header.
    fn header(&mut self, header: Header)
        requires { HasRoom self.old HEADER_BITS }
        ensures { Writes self.old (header_digits header) self.new }
    {
        self.field(EDITION_WIDTH, EDITION);
        self.field(BIT_WIDTH, winding_bit(header.winding));
        self.field(BIT_WIDTH, header.signed.into());
        self.field(SURFACE_WIDTH, header.surface.into());
        self.field(COUNT_WIDTH, header.edits.into());
    }
}

// The packed sheet of a header and its edits.
pub fn pack(heap: Global, header: Header, edits: &[Edit]) -> Result<Vec<u8>, PackFault>
    ensures bytes { MatchResult result (λ v. packed_sheet header edits.now ≡ Ok v.items) (λ e. (e ≡ NoMemory) ⊎ (packed_sheet header edits.now ≡ Err e)) }
    ensures reads_back { IfOk result (λ v. ReadsBack v.items header edits.now) }
{
    if edits.len() != usize::from(header.edits) {
        return Err(PackFault::Count);
    }
    let end = edits_end(edits)?;
    let mut writer = BitWriter::blank(heap, end.div_ceil(8))?;
    writer.header(header);
    writer.edits(edits);
    let BitWriter { bytes, .. } = writer;
    Ok(bytes)
}
