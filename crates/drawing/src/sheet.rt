// A whole sheet: its header, its edits and its figures.
ghost use Rattle.std.specs.Prelude.{◌≡◌, IfOk, Ok as Read};
ghost use Rattle.history.specs.Calls.{lengths_of};
ghost use Rattle.packed.specs.declared.sheets.Header.{Header as Heading};
ghost use Rattle.packed.specs.declared.faults.SheetFault.TheVariants.{Outline as Off};
ghost use Rattle.packed.specs.Sheets.{header_of};
ghost use Rattle.outline.specs.WholeRule.{WholeRule};
ghost use Rattle.drawing.specs.Sketches.{sheet_left, sheet_on, drawn_sheet, Fresh, ListLaw};
ghost use Rattle.drawing.specs.Surfaces.{edges_on, whole_on, Stand};

use crate::Drawing;
use crate::strokes::draw_edits;
use functions::SeriesSet;
use geodesic::Geodesic;
use outline::Outline;
use packed::{Header, SheetFault, SurfaceKind, in_edit, read_header};
use stations::{EditRecord, Station};
use surface::{Plate, Refusal, Surface};

// A refusal outside the edits, as a fault of the header, which is told as edit 0 at bit 0.
fn in_header(refusal: Refusal) -> SheetFault
    ensures { result ≡ Off 0 0 refusal }
{
    SheetFault::Outline {
        edit: 0,
        bit: 0,
        refusal,
    }
}

// Draws the edits of a sheet on a new outline, and measures it.
fn draw_on<S: Surface + Drop>(
    surface: S,
    header: Header,
    bytes: &[u8],
    stations: &mut [Station],
    edits: &mut [EditRecord],
) -> Result<Drawing, SheetFault>
    ensures left { sheet_left result stations.new edits.new ≡ sheet_on stations.old edits.old (S.edges surface) (S.whole surface) bytes.now header }
    ensures fresh { IfOk result (λ d. Fresh (S.edges surface) (S.whole surface) (lengths_of stations.old edits.old) bytes.now header d) }
{
    let opened = Outline::open(surface, header.winding, stations.len(), edits.len());
    let mut outline = opened.map_err(in_header)?;
    let spent = draw_edits(&mut outline, stations, edits, bytes, header.edits)?;
    let closing = outline
        .measure(stations, edits, header.signed)
        .map_err(in_header)?;
    Ok(Drawing {
        figures: closing.figures,
        cost: spent + closing.cost,
    })
}

// Draws a packed sheet on lent rows: its edits in file order, each as a call of its own, and then
// the figures of the points that stand. The first thing wrong in file order is the fault, and
// leaves both rows as the edit before left them.
pub fn draw(
    bytes: &[u8],
    stations: &mut [Station],
    edits: &mut [EditRecord],
) -> Result<Drawing, SheetFault>
    ensures left { sheet_left result stations.new edits.new ≡ drawn_sheet stations.old edits.old bytes.now }
    ensures fresh { (header : Heading) → header_of bytes.now ≡ Read header → IfOk result (λ d. Fresh (edges_on header.surface) (whole_on header.surface) (lengths_of stations.old edits.old) bytes.now header d) }
    ensures listed { ListLaw }
    ensures surfaces { Stand }
    ensures rule { WholeRule }
{
    let header = in_edit(0, read_header(bytes))?;
    match header.surface {
        SurfaceKind::Wgs84 => {
            let ellipsoid = Geodesic::wgs84(SeriesSet).map_err(in_header)?;
            draw_on(ellipsoid, header, bytes, stations, edits)
        }
        SurfaceKind::Plate => {
            let plate = Plate::new(1.0).map_err(in_header)?;
            draw_on(plate, header, bytes, stations, edits)
        }
    }
}
