// The call from C that draws a packed sheet.
ghost use Rattle.std.specs.Prelude.{◌≡◌};
ghost use Rattle.drawing.specs.Sketches.{drawn_sheet};
ghost use Rattle.outline_c.specs.Sheets.{layer_number, told_fault, sheet_code, drawn_over, fault_over};

use drawing::{Drawing, draw};
use history::Measurement;
use packed::{Layer, SheetFault, Told};
use stations::{EditRecord, Station};

// What is told of a fault of a sheet: its layer (1 bits, 2 field, 3 outline), its number, the edit,
// counted from 1, or 0 for the header, and the bit, counted from 0. `Told` has no layout that C knows.
#[derive(Clone, Copy, PartialEq, Eq, Hash, Debug)]
#[repr(C)]
pub struct ToldFault {
    pub layer: u8,
    pub number: u8,
    pub edit: u16,
    pub bit: usize,
}

// The number of a layer. No From: the numbers are C's, which `packed` does not know.
fn layer_number(layer: Layer) -> u8
    ensures { result ≡ layer_number layer }
{
    match layer {
        Layer::Bits => 1,
        Layer::Field => 2,
        Layer::Outline => 3,
    }
}

impl From<SheetFault> for ToldFault {
    ghost from_gives = { λ fault t. t ≡ told_fault fault };

    fn from(fault: SheetFault) -> ToldFault {
        let Told {
            layer,
            number,
            edit,
            bit,
        } = fault.told();
        ToldFault {
            layer: layer_number(layer),
            number,
            edit,
            bit,
        }
    }
}

// Draws a packed sheet on lent rows: its figures and the cost of all its edits and of the closing
// edge, or its fault, which leaves both rows as the edit before left them.
#[unsafe(no_mangle)]
pub extern "C" fn outline_draw(
    bytes: &[u8],
    stations: &mut [Station],
    edits: &mut [EditRecord],
    drawn: &mut Measurement,
    fault: &mut ToldFault,
) -> u32
    ensures code { result ≡ sheet_code (drawn_sheet stations.old edits.old bytes.now).answer }
    ensures stations { stations.new ≡ (drawn_sheet stations.old edits.old bytes.now).stations }
    ensures edits { edits.new ≡ (drawn_sheet stations.old edits.old bytes.now).edits }
    ensures drawn { drawn.new ≡ drawn_over drawn.old (drawn_sheet stations.old edits.old bytes.now).answer }
    ensures fault { fault.new ≡ fault_over fault.old (drawn_sheet stations.old edits.old bytes.now).answer }
{
    match draw(bytes, stations, edits) {
        Ok(Drawing { figures, cost }) => {
            *drawn = Measurement { figures, cost };
            0
        }
        Err(found) => {
            *fault = found.into();
            fault.number.into()
        }
    }
}
