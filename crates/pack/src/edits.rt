// The edits that the lines of a text make.
ghost use Rattle.std.specs.Prelude.{◌≡◌, ◌⊎◌, [], Some, Ok, Err, MatchResult};
ghost use Rattle.text.specs.Words.{lines_of};
ghost use Rattle.pack.specs.declared.edits.Fault.TheVariants.{Sheet};
ghost use Rattle.pack.specs.declared.edits.Slip.TheVariants.{NotACall as NoCall};
ghost use Rattle.pack.specs.Edits.{place_field, edit_from, part_of, slip_text, no_memory, Gathers};

use history::Call;
use packed::{Edit, MOST_PLACE, PackFault};
use script::{NotACall, read};
use std::alloc::{AllocFailed, Global};
use std::fmt;
use text::lines;
use thiserror::Error;

// Why a line has no place in a sheet.
#[derive(Clone, Copy, PartialEq, Eq, Debug, Hash)]
pub enum Slip {
    // it is no call
    NotACall,
    // its place is above 4,095
    Place,
}

impl From<NotACall> for Slip {
    ghost from_gives = { λ _ r. r ≡ NoCall };

    fn from(_error: NotACall) -> Slip {
        Slip::NotACall
    }
}

impl fmt::Display for Slip {
    ghost output = { λ slip. Some (slip_text slip) };

    fn fmt<W: fmt::Write>(&self, f: &mut fmt::Formatter<W>) -> fmt::Result {
        f.write_str(match self {
            Slip::NotACall => "not a call",
            Slip::Place => "a place above 4095",
        })
    }
}

impl std::error::Error for Slip {}

// Why a text makes no sheet.
#[derive(Clone, Copy, PartialEq, Eq, Debug, Hash, Error)]
pub enum Fault {
    // at this line, counted from 1
    #[error("line {line}: {slip}")]
    Line { line: usize, slip: Slip },
    #[error("more than 65535 edits")]
    TooMany,
    #[error(transparent)]
    Sheet(PackFault),
}

impl From<PackFault> for Fault {
    ghost from_gives = { λ fault r. r ≡ Sheet fault };

    fn from(fault: PackFault) -> Fault {
        Fault::Sheet(fault)
    }
}

impl<T: Drop> From<AllocFailed<T>> for Fault {
    ghost from_gives = { λ _ r. r ≡ no_memory };

    fn from(_refused: AllocFailed<T>) -> Fault {
        Fault::Sheet(PackFault::NoMemory)
    }
}

// A place as its field of 12 bits holds it. A slip is told with its line, so the place is tested
// before there is a sheet; `pack` tests the places of every sheet.
fn place_field(place: usize) -> Result<u16, Slip>
    ensures { result ≡ place_field place }
{
    match u16::try_from(place) {
        Ok(place) if place <= MOST_PLACE => Ok(place),
        _ => Err(Slip::Place),
    }
}

// What a call adds to the sheet: at most one edit. A measure adds none, since a sheet is measured
// at its end. No `TryFrom`: both types are other crates'.
fn edit_from(call: Call) -> Result<Option<Edit>, Slip>
    ensures { result ≡ edit_from call }
{
    match call {
        Call::Add { lat, lon } => Ok(Some(Edit::Add { lat, lon })),
        Call::Move { place, lat, lon } => {
            let place = place_field(place)?;
            Ok(Some(Edit::Move { place, lat, lon }))
        }
        Call::Drop { place } => {
            let place = place_field(place)?;
            Ok(Some(Edit::Drop { place }))
        }
        Call::TakeBack => Ok(Some(Edit::TakeBack)),
        Call::Measure { .. } => Ok(None),
    }
}

// What a line that was read adds to the sheet.
pub fn part_of(line: Result<Option<Call>, NotACall>) -> Result<Option<Edit>, Slip>
    ensures { result ≡ part_of line }
{
    match line? {
        Some(call) => edit_from(call),
        None => Ok(None),
    }
}

// The edits of all lines, in order. `enumerate` counts them from 0; the range `1..` ends, and a zip
// with it would end there.
pub fn edits_of(heap: Global, text: &str) -> Result<Vec<Edit>, Fault>
    ensures { MatchResult result (λ v. Gathers 0 [] (lines_of text.now) (Ok v.items)) (λ f. (f ≡ no_memory) ⊎ Gathers 0 [] (lines_of text.now) (Err f)) }
{
    let mut edits = Vec::new(heap);
    for (before, line) in lines(text).enumerate() {
        match part_of(read(line)) {
            Ok(None) => {}
            Ok(Some(edit)) => edits.push(edit)?,
            Err(slip) => {
                return Err(Fault::Line {
                    line: before + 1,
                    slip,
                });
            }
        }
    }
    Ok(edits)
}
