// The edits of a sheet, drawn on an outline in file order, each as a call of its own.
ghost use Rattle.std.specs.Prelude.{◌≡◌, ◌≤◌, IfOk};
ghost use Rattle.stations.specs.Stations.{free};
ghost use Rattle.history.specs.Calls.{left};
ghost use Rattle.history.specs.Expenses.{Affordable};
ghost use Rattle.packed.specs.declared.faults.SheetFault.TheVariants.{Outline as Off};
ghost use Rattle.drawing.specs.Strokes.{call_of, edit_drawn, edits_drawn};

use history::Call;
use outline::Outline;
use packed::{Edit, HEADER_BITS, SheetFault, in_edit, read_edit, read_end};
use stations::{Cost, EditRecord, Station};
use surface::{Refusal, Surface};

// The call that an edit is. `packed` knows no calls and `history` no files, so that a `From` could
// stand in neither.
fn call_of(edit: Edit) -> Call
    ensures { result ≡ call_of edit }
{
    match edit {
        Edit::Add { lat, lon } => Call::Add { lat, lon },
        Edit::Move { place, lat, lon } => Call::Move {
            place: place as usize,
            lat,
            lon,
        },
        Edit::Drop { place } => Call::Drop {
            place: place as usize,
        },
        Edit::TakeBack => Call::TakeBack,
    }
}

// Draws the edit of this number, which begins at bit `at`. Answers its cost and the bit at which
// the next begins. A fault leaves the outline and both rows as they were.
pub fn draw_edit<S: Surface>(
    outline: &mut Outline<S>,
    stations: &mut [Station],
    edits: &mut [EditRecord],
    bytes: &[u8],
    number: u16,
    at: usize,
) -> Result<(Cost, usize), SheetFault>
    ensures left { left result outline.new.frame stations.new edits.new ≡ edit_drawn (S.edges outline.old.surface) (S.whole outline.old.surface) bytes.now number at outline.old.frame stations.old edits.old }
    ensures surface { outline.new.surface ≡ outline.old.surface }
    ensures few { IfOk result (λ p. Affordable p.0) }
{
    let (edit, end) = in_edit(number, read_edit(bytes, at))?;
    let refused = |refusal: Refusal| -> SheetFault
        ensures { result ≡ Off number at refusal }
    {
        SheetFault::Outline {
            edit: number,
            bit: at,
            refusal,
        }
    };
    let done = outline
        .make(stations, edits, call_of(edit))
        .map_err(refused)?;
    Ok((done.cost(), end))
}

// Draws `count` edits, which follow the header, and reads the end of the sheet. Answers their cost.
// A fault leaves the outline and both rows as the edit before left them.
pub fn draw_edits<S: Surface>(
    outline: &mut Outline<S>,
    stations: &mut [Station],
    edits: &mut [EditRecord],
    bytes: &[u8],
    count: u16,
) -> Result<Cost, SheetFault>
    ensures left { left result outline.new.frame stations.new edits.new ≡ edits_drawn (S.edges outline.old.surface) (S.whole outline.old.surface) bytes.now count 0 24 free outline.old.frame stations.old edits.old }
    ensures surface { outline.new.surface ≡ outline.old.surface }
    ensures few { IfOk result (λ cost. (cost.edges ≤ 131070) × (cost.evaluations ≤ 10878810)) }
{
    let mut at = HEADER_BITS;
    let mut total = Cost::FREE;
    // Counted from 0: a loop over `1..=count` ends within its last turn, or before any, and a proof
    // of both would say twice what a turn does.
    for drawn in 0..count {
        let (spent, end) = draw_edit(outline, stations, edits, bytes, drawn + 1, at)?;
        total = total + spent;
        at = end;
    }
    in_edit(count, read_end(bytes, at))?;
    Ok(total)
}
