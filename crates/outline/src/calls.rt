// The calls on an outline. A refused call leaves the outline and both rows as they were.
ghost use Rattle.std.specs.Prelude.{◌≡◌, ◌*◌, ◌≤◌, true, false, length, IfOk, MatchResult};
ghost use Rattle.std.specs.Result.{result_err};
ghost use Rattle.stations.specs.Costs.{neighbours, bridged, add_edges, take_back_edges, Costs};
ghost use Rattle.stations.specs.Stations.{drawing};
ghost use Rattle.surface.specs.declared.refusals.Refusal.TheVariants.{RowLength};
ghost use Rattle.stations.specs.Records.{code_of, fits_outline, noted, noted_count};
ghost use Rattle.history.specs.Calls.{open_refusal, opened, same_lengths, with_counts, left, newest_of, add_of, move_of, drop_of, take_back_of, undrawn, undrawn_count, measured, measure_of};
ghost use Rattle.outline.specs.Examples.{AllExamples};
ghost use Rattle.outline.specs.Resuming.{resume_refusal};
ghost use Rattle.outline.specs.WholeRule.{WholeRule};

use crate::outlines::Outline;
use crate::sums::traverse_over;
use area::{Winding, reduce_area};
use geomath::accepted;
use history::{Frame, Measurement, Sizes};
use polygon::{Figures, Point, transit};
use stations::{Cost, EditKind, EditRecord, Station, note, place_point, remove_point, shift_point};
use surface::{Refusal, Surface};

// The most slots that a row may have.
const MOST_STATIONS: u16 = 4096;

const MOST_EDITS: u16 = 1024;

// Both rows are parameters of each call, as C lends them.
impl<S: Surface> Outline<S> {
    // An outline with no points, over rows of these lengths. Refused where a row is longer than it
    // may be.
    pub fn open(
        surface: S,
        winding: Winding,
        stations: usize,
        edits: usize,
    ) -> Result<Outline<S>, Refusal>
    where
        S: Drop,
        ensures answer { result_err result ≡ open_refusal stations edits }
        ensures surface { IfOk result (λ o. o.surface ≡ surface) }
        ensures frame { IfOk result (λ o. o.frame ≡ opened winding stations edits) }
        ensures examples { AllExamples }
    {
        let (Ok(stations), Ok(edits)) = (u16::try_from(stations), u16::try_from(edits)) else {
            return Err(Refusal::RowLength);
        };
        let frame = Frame {
            winding,
            lengths: Sizes { stations, edits },
            counts: Sizes::default(),
        };
        Outline::resume(surface, frame)
    }

    // Takes an outline up again from what it keeps. Refused where a row is longer than it may be, or
    // holds more than it has slots.
    pub fn resume(surface: S, frame: Frame) -> Result<Outline<S>, Refusal>
    where
        S: Drop,
        ensures answer { result_err result ≡ resume_refusal frame }
        ensures surface { IfOk result (λ o. o.surface ≡ surface) }
        ensures frame { IfOk result (λ o. o.frame ≡ frame) }
    {
        let Frame {
            lengths,
            counts,
            ..
        } = frame;
        if lengths.stations > MOST_STATIONS || lengths.edits > MOST_EDITS {
            return Err(Refusal::RowLength);
        }
        if counts.stations > lengths.stations || counts.edits > lengths.edits {
            return Err(Refusal::RowLength);
        }
        Ok(Outline { surface, frame })
    }

    // What the outline keeps beside its surface.
    pub fn frame(&self) -> Frame
        ensures { result ≡ self.now.frame }
    {
        self.frame
    }

    // Refused where the rows are not as long as at opening.
    fn rows_fit(&self, stations: usize, edits: usize) -> Result<(), Refusal>
        ensures { MatchResult result (λ u. (same_lengths (record { stations = stations; edits = edits }) self.now.frame.lengths ≡ true) × (stations ≡ self.now.frame.lengths.stations) × (edits ≡ self.now.frame.lengths.edits)) (λ e. (same_lengths (record { stations = stations; edits = edits }) self.now.frame.lengths ≡ false) × (e ≡ RowLength)) }
    {
        let lengths = self.frame.lengths;
        if stations == lengths.stations as usize && edits == lengths.edits as usize {
            Ok(())
        } else {
            Err(Refusal::RowLength)
        }
    }

    // Notes an edit, after which `count` stations are held.
    fn note_edit(&mut self, edits: &mut [EditRecord], count: u16, edit: EditRecord)
        requires room { count ≤ self.old.frame.lengths.stations }
        requires rows { length edits.old ≡ self.old.frame.lengths.edits }
        ensures frame { self.new.frame ≡ with_counts self.old.frame count (noted_count edits.old self.old.frame.counts.edits) }
        ensures edits { edits.new ≡ noted edits.old self.old.frame.counts.edits edit }
        ensures surface { self.new.surface ≡ self.old.surface }
    {
        let held = note(edits, self.frame.counts.edits as usize, edit);
        self.frame.counts = Sizes {
            stations: count,
            edits: held as u16,
        };
    }

    // Adds a point after the last.
    pub fn add(
        &mut self,
        stations: &mut [Station],
        edits: &mut [EditRecord],
        lat: f64,
        lon: f64,
    ) -> Result<Cost, Refusal>
        ensures left { left result self.new.frame stations.new edits.new ≡ add_of (S.edges self.old.surface) self.old.frame stations.old edits.old lat lon }
        ensures surface { self.new.surface ≡ self.old.surface }
        ensures cost { Costs result (add_edges self.old.frame.counts.stations) }
    {
        self.rows_fit(stations.len(), edits.len())?;
        if !accepted(lat, lon) {
            return Err(Refusal::Point);
        }
        let place = self.frame.counts.stations;
        let count = place as usize;
        if count >= stations.len() {
            return Err(Refusal::Full);
        }
        let cost = place_point(&self.surface, stations, count, count, Point { lat, lon });
        self.note_edit(edits, place + 1, EditRecord::added(place));
        Ok(cost)
    }

    // Moves the point at `place`.
    pub fn move_to(
        &mut self,
        stations: &mut [Station],
        edits: &mut [EditRecord],
        place: usize,
        lat: f64,
        lon: f64,
    ) -> Result<Cost, Refusal>
        ensures left { left result self.new.frame stations.new edits.new ≡ move_of (S.edges self.old.surface) self.old.frame stations.old edits.old place lat lon }
        ensures surface { self.new.surface ≡ self.old.surface }
        ensures cost { Costs result (neighbours self.old.frame.counts.stations place) }
    {
        self.rows_fit(stations.len(), edits.len())?;
        let count = self.frame.counts.stations;
        if place >= count as usize {
            return Err(Refusal::Place);
        }
        if !accepted(lat, lon) {
            return Err(Refusal::Point);
        }
        let old = stations[place].point();
        let to = Point { lat, lon };
        let cost = shift_point(&self.surface, stations, count as usize, place, to);
        self.note_edit(edits, count, EditRecord::moved(place as u16, old));
        Ok(cost)
    }

    // Drops the point at `place`.
    pub fn drop_at(
        &mut self,
        stations: &mut [Station],
        edits: &mut [EditRecord],
        place: usize,
    ) -> Result<Cost, Refusal>
        ensures left { left result self.new.frame stations.new edits.new ≡ drop_of (S.edges self.old.surface) self.old.frame stations.old edits.old place }
        ensures surface { self.new.surface ≡ self.old.surface }
        ensures cost { Costs result (bridged self.old.frame.counts.stations place) }
    {
        self.rows_fit(stations.len(), edits.len())?;
        let count = self.frame.counts.stations;
        if place >= count as usize {
            return Err(Refusal::Place);
        }
        let old = stations[place].point();
        let cost = remove_point(&self.surface, stations, count as usize, place);
        self.note_edit(edits, count - 1, EditRecord::dropped(place as u16, old));
        Ok(cost)
    }

    // Draws the stations without an edit of this kind that fits, and answers the cost and how many there are.
    fn undraw(&self, stations: &mut [Station], kind: EditKind, edit: EditRecord) -> (Cost, u16)
        requires kind { code_of kind ≡ edit.kind }
        requires fits { fits_outline self.now.frame.counts.stations (length stations.old) edit ≡ true }
        requires rows { length stations.old ≡ self.now.frame.lengths.stations }
        ensures drawing { drawing stations.new result.0 ≡ undrawn (S.edges self.now.surface) stations.old self.now.frame.counts.stations edit }
        ensures count { result.1 ≡ undrawn_count self.now.frame.counts.stations edit }
        ensures held { result.1 ≤ self.now.frame.lengths.stations }
        ensures few { result.0.evaluations ≤ 83 * result.0.edges }
    {
        let count = self.frame.counts.stations;
        let place = edit.place as usize;
        match kind {
            EditKind::Add => (Cost::FREE, count - 1),
            EditKind::Move => (
                shift_point(&self.surface, stations, count as usize, place, edit.old()),
                count,
            ),
            EditKind::Drop => (
                place_point(&self.surface, stations, count as usize, place, edit.old()),
                count + 1,
            ),
        }
    }

    // Takes the newest edit back.
    pub fn take_back(
        &mut self,
        stations: &mut [Station],
        edits: &[EditRecord],
    ) -> Result<Cost, Refusal>
        ensures left { left result self.new.frame stations.new edits.now ≡ take_back_of (S.edges self.old.surface) self.old.frame stations.old edits.now }
        ensures surface { self.new.surface ≡ self.old.surface }
        ensures cost { Costs result (take_back_edges self.old.frame.counts.stations (newest_of edits.now self.old.frame.counts.edits)) }
    {
        self.rows_fit(stations.len(), edits.len())?;
        let counts = self.frame.counts;
        if counts.edits == 0 {
            return Err(Refusal::NothingToTakeBack);
        }
        let edit = edits[counts.edits as usize - 1];
        let Some(kind) = edit.fits(counts.stations as usize, stations.len()) else {
            return Err(Refusal::UnfitRecord);
        };
        let (cost, held) = self.undraw(stations, kind, edit);
        self.frame.counts = Sizes {
            stations: held,
            edits: counts.edits - 1,
        };
        Ok(cost)
    }

    // The figures of the outline, closed by the edge from its last point to its first.
    pub fn measure(
        &self,
        stations: &[Station],
        edits: &[EditRecord],
        sign: bool,
    ) -> Result<Measurement, Refusal>
        ensures answer { result ≡ measure_of (S.edges self.now.surface) (S.whole self.now.surface) self.now.frame stations.now edits.now sign }
        ensures edges { IfOk result (λ m. (m.cost.edges ≡ 1) × (m.cost.evaluations ≤ 83)) }
        ensures rule { WholeRule }
    {
        self.rows_fit(stations.len(), edits.len())?;
        let count = self.frame.counts.stations as usize;
        Ok(self.closed(&stations[0..count], sign))
    }

    // The figures of these stations with the closing edge.
    fn closed(&self, row: &[Station], sign: bool) -> Measurement
        requires { length row.now ≤ 65535 }
        ensures { result ≡ measured (S.edges self.now.surface) (S.whole self.now.surface) self.now.frame.winding sign row.now }
    {
        // Written out, and not the polygon's `closed`: a polygon that an outline is compared with shares
        // none of this.
        let traverse = traverse_over(row);
        let (last, first) = (traverse.latest, traverse.initial);
        let edge = self.surface.edge(last.lat, last.lon, first.lat, first.lon);
        let crossings = traverse.crossings + transit(last.lon, first.lon);
        let area = reduce_area(
            self.surface.area(),
            traverse.areasum + edge.S12,
            crossings,
            self.frame.winding,
            sign,
        );
        Measurement {
            figures: Figures {
                perimeter: traverse.perimetersum + edge.s12,
                area,
                count: traverse.num,
            },
            cost: Cost {
                edges: 1,
                evaluations: edge.evaluations as u32,
            },
        }
    }
}
