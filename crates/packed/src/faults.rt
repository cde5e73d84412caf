// What can be wrong with a packed sheet, in three layers, each of which holds the one below whole.
ghost use Rattle.std.specs.Prelude.{◌≡◌, Some};
ghost use Rattle.packed.specs.declared.faults.FieldFault.TheVariants.{Bits};
ghost use Rattle.packed.specs.declared.faults.SheetFault.TheVariants.{Field};
ghost use Rattle.packed.specs.Faults.{layer_name, told_text, layer_of, fault_number, fault_bit, told, in_edit};

use crate::bits::MOST_BITS;
use std::error::Error;
use std::fmt;
use surface::Refusal;

// A fault of the bits.
#[derive(Clone, Copy, PartialEq, Eq, Debug, Hash)]
pub enum BitFault {
    // the file ends before the field that begins at `bit` does
    Ends { bit: usize },
    // the file has more than 65,536 bytes
    TooLong,
}

// A fault of a field.
#[derive(Clone, Copy, PartialEq, Eq, Debug, Hash)]
pub enum FieldFault {
    Bits(BitFault),
    // an edition that is not known
    Edition,
    // a surface that is not known
    Surface,
    // a one at `bit`, which fills the last byte
    Fill { bit: usize },
    // bytes after the last, from `bit` on
    Surplus { bit: usize },
}

// A fault of a field, with the edit in which it stands. 0 is the header: the C interface and the
// program `sheet` tell it by that number.
#[derive(Clone, Copy, PartialEq, Eq, Debug, Hash)]
pub struct EditFault {
    pub edit: u16,
    pub fault: FieldFault,
}

// A fault of a sheet.
#[derive(Clone, Copy, PartialEq, Eq, Debug, Hash)]
pub enum SheetFault {
    Field(EditFault),
    // the outline refuses the edit that begins at `bit`
    Outline {
        edit: u16,
        bit: usize,
        refusal: Refusal,
    },
}

impl From<BitFault> for FieldFault {
    ghost from_gives = { λ fault r. r ≡ Bits fault };

    fn from(fault: BitFault) -> FieldFault {
        FieldFault::Bits(fault)
    }
}

impl From<EditFault> for SheetFault {
    ghost from_gives = { λ fault r. r ≡ Field fault };

    fn from(fault: EditFault) -> SheetFault {
        SheetFault::Field(fault)
    }
}

// The layer at which a fault was found, by its number of include/outline.h.
#[derive(Clone, Copy, PartialEq, Eq, Debug, Hash)]
pub enum Layer {
    Bits = 1,
    Field = 2,
    Outline = 3,
}

impl fmt::Display for Layer {
    ghost output = { λ layer. Some (layer_name layer) };

    fn fmt<W: fmt::Write>(&self, f: &mut fmt::Formatter<W>) -> fmt::Result {
        f.write_str(match self {
            Layer::Bits => "bits",
            Layer::Field => "field",
            Layer::Outline => "outline",
        })
    }
}

// What is told of a fault: its layer, its number, the edit (counted from 1; 0 is the header) and
// the bit, counted from 0. The C interface has a struct of its own for it, since C takes the layer
// as a number.
#[derive(Clone, Copy, PartialEq, Eq, Debug, Hash)]
pub struct Told {
    pub layer: Layer,
    pub number: u8,
    pub edit: u16,
    pub bit: usize,
}

impl fmt::Display for Told {
    ghost output = { λ t. Some (told_text t) };

    fn fmt<W: fmt::Write>(&self, f: &mut fmt::Formatter<W>) -> fmt::Result {
        let Told {
            layer,
            number,
            edit,
            bit,
        } = self;
        write!(f, "{layer} {number} edit {edit} bit {bit}")
    }
}

// The numbers of a field's faults in include/outline.h.
const BITS_END: u8 = 9;

const FIELD_VALUE: u8 = 10;

const BITS_TOO_LONG: u8 = 11;

// Where the edition and the surface stand in the header.
const EDITION_BIT: usize = 0;

const SURFACE_BIT: usize = 6;

impl FieldFault {
    fn layer(self) -> Layer
        ensures { result ≡ layer_of self }
    {
        match self {
            FieldFault::Bits(_) => Layer::Bits,
            FieldFault::Edition
            | FieldFault::Surface
            | FieldFault::Fill { .. }
            | FieldFault::Surplus { .. } => Layer::Field,
        }
    }

    fn number(self) -> u8
        ensures { result ≡ fault_number self }
    {
        match self {
            FieldFault::Bits(BitFault::Ends { .. }) => BITS_END,
            FieldFault::Bits(BitFault::TooLong) => BITS_TOO_LONG,
            FieldFault::Edition
            | FieldFault::Surface
            | FieldFault::Fill { .. }
            | FieldFault::Surplus { .. } => FIELD_VALUE,
        }
    }

    // A file that is too long is told by the first bit that no file may have.
    fn bit(self) -> usize
        ensures { result ≡ fault_bit self }
    {
        match self {
            FieldFault::Bits(BitFault::Ends { bit })
            | FieldFault::Fill { bit }
            | FieldFault::Surplus { bit } => bit,
            FieldFault::Bits(BitFault::TooLong) => MOST_BITS,
            FieldFault::Edition => EDITION_BIT,
            FieldFault::Surface => SURFACE_BIT,
        }
    }
}

impl SheetFault {
    // What is told of the fault.
    pub fn told(&self) -> Told
        ensures { result ≡ told self.now }
    {
        match *self {
            SheetFault::Field(EditFault { edit, fault }) => Told {
                layer: fault.layer(),
                number: fault.number(),
                edit,
                bit: fault.bit(),
            },
            SheetFault::Outline { edit, bit, refusal } => Told {
                layer: Layer::Outline,
                number: refusal.number(),
                edit,
                bit,
            },
        }
    }
}

impl fmt::Display for SheetFault {
    ghost output = { λ fault. Some (told_text (told fault)) };

    fn fmt<W: fmt::Write>(&self, f: &mut fmt::Formatter<W>) -> fmt::Result {
        write!(f, "{}", self.told())
    }
}

impl Error for SheetFault {}

// What was read in an edit, or the fault with the edit's number.
pub fn in_edit<T>(edit: u16, read: Result<T, FieldFault>) -> Result<T, EditFault>
    ensures { result ≡ in_edit edit read }
{
    read.map_err(|fault| EditFault { edit, fault })
}
