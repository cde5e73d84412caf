// The calls from C that open and edit an outline. Each checks the outline that is kept before use;
// a call that is not done leaves everything behind its pointers as it was.
ghost use Rattle.std.specs.Prelude.{◌≡◌, ◌≢◌};
ghost use Rattle.floats.specs.Arithmetic.{bits};
ghost use Rattle.outline_c.specs.Faults.{told_code, written};
ghost use Rattle.outline_c.specs.Grounds.{number_of};
ghost use Rattle.outline_c.specs.Exports.{opened, add_left, move_left, drop_left, take_back_left, Leaves, Stayed};

use crate::faults::{Fault, tell};
use crate::grounds::{SurfaceNumber, ground_of};
use crate::kept::{KeptOutline, winding_of};
use earth::Ground;
use history::Frame;
use outline::Outline;
use stations::{Cost, EditRecord, Station};

// What an outline with no points keeps.
fn opened(
    surface: SurfaceNumber,
    scale: f64,
    winding: u8,
    stations: usize,
    edits: usize,
) -> Result<KeptOutline, Fault>
    ensures { result ≡ opened (number_of surface) scale winding stations edits }
{
    let ground = ground_of(surface, scale)?;
    let sense = winding_of(winding)?;
    let Frame {
        lengths,
        counts,
        ..
    } = Outline::open(ground, sense, stations, edits)?.frame();
    Ok(KeptOutline {
        scale,
        surface: surface as u8,
        winding,
        lengths,
        counts,
    })
}

// Opens an outline with no points on the WGS84 ellipsoid, over rows of these lengths.
#[unsafe(no_mangle)]
pub extern "C" fn outline_open_wgs84(
    kept: &mut KeptOutline,
    winding: u8,
    station_slots: usize,
    edit_slots: usize,
) -> u32
    ensures code { result ≡ told_code (opened 0 (bits 0) winding station_slots edit_slots) }
    ensures kept { kept.new ≡ written kept.old (opened 0 (bits 0) winding station_slots edit_slots) }
{
    let earth = SurfaceNumber::Wgs84;
    tell(opened(earth, 0.0, winding, station_slots, edit_slots), kept)
}

// Opens an outline with no points on the plate of a scale, over rows of these lengths.
#[unsafe(no_mangle)]
pub extern "C" fn outline_open_plate(
    kept: &mut KeptOutline,
    scale: f64,
    winding: u8,
    station_slots: usize,
    edit_slots: usize,
) -> u32
    ensures code { result ≡ told_code (opened 1 scale winding station_slots edit_slots) }
    ensures kept { kept.new ≡ written kept.old (opened 1 scale winding station_slots edit_slots) }
{
    let plate = SurfaceNumber::Plate;
    tell(
        opened(plate, scale, winding, station_slots, edit_slots),
        kept,
    )
}

// Adds a point after the last.
#[unsafe(no_mangle)]
pub extern "C" fn outline_add(
    kept: &mut KeptOutline,
    stations: &mut [Station],
    edits: &mut [EditRecord],
    lat: f64,
    lon: f64,
    cost: &mut Cost,
) -> u32
    ensures left { Leaves (add_left kept.old stations.old edits.old lat lon) cost.old result kept.new stations.new edits.new cost.new }
    ensures refused { (result ≢ 0) → Stayed kept.old kept.new stations.old stations.new edits.old edits.new cost.old cost.new }
{
    let mut edit = |outline: &mut Outline<Ground>| outline.add(stations, edits, lat, lon);
    tell(kept.edited(&mut edit), cost)
}

// Moves the point at `place`.
#[unsafe(no_mangle)]
pub extern "C" fn outline_move(
    kept: &mut KeptOutline,
    stations: &mut [Station],
    edits: &mut [EditRecord],
    place: usize,
    lat: f64,
    lon: f64,
    cost: &mut Cost,
) -> u32
    ensures left { Leaves (move_left kept.old stations.old edits.old place lat lon) cost.old result kept.new stations.new edits.new cost.new }
    ensures refused { (result ≢ 0) → Stayed kept.old kept.new stations.old stations.new edits.old edits.new cost.old cost.new }
{
    let mut edit = |outline: &mut Outline<Ground>| outline.move_to(
        stations, edits, place, lat, lon,
    );
    tell(kept.edited(&mut edit), cost)
}

// Drops the point at `place`.
#[unsafe(no_mangle)]
pub extern "C" fn outline_drop(
    kept: &mut KeptOutline,
    stations: &mut [Station],
    edits: &mut [EditRecord],
    place: usize,
    cost: &mut Cost,
) -> u32
    ensures left { Leaves (drop_left kept.old stations.old edits.old place) cost.old result kept.new stations.new edits.new cost.new }
    ensures refused { (result ≢ 0) → Stayed kept.old kept.new stations.old stations.new edits.old edits.new cost.old cost.new }
{
    let mut edit = |outline: &mut Outline<Ground>| outline.drop_at(stations, edits, place);
    tell(kept.edited(&mut edit), cost)
}

// Takes the newest edit back.
#[unsafe(no_mangle)]
pub extern "C" fn outline_take_back(
    kept: &mut KeptOutline,
    stations: &mut [Station],
    edits: &[EditRecord],
    cost: &mut Cost,
) -> u32
    ensures left { Leaves (take_back_left kept.old stations.old edits.now) cost.old result kept.new stations.new edits.now cost.new }
    ensures refused { (result ≢ 0) → Stayed kept.old kept.new stations.old stations.new edits.now edits.now cost.old cost.new }
{
    let mut edit = |outline: &mut Outline<Ground>| outline.take_back(stations, edits);
    tell(kept.edited(&mut edit), cost)
}
