// Any call on an outline, and calls made one after the other.
ghost use Rattle.std.specs.Prelude.{◌≡◌, take, None, Ok, IfOk};
ghost use Rattle.history.specs.Calls.{lengths_of, left, done_of};
ghost use Rattle.history.specs.Book.{empty_book};
ghost use Rattle.history.specs.Expenses.{cost_in, Affordable};
ghost use Rattle.history.specs.Replays.{ran, calls_made, replayed, replay_from, replay_of, AnswersAgree};

use crate::outlines::Outline;
use area::Winding;
use history::{Answer, Call, Done};
use stations::{EditRecord, Station};
use surface::{Refusal, Surface};

impl<S: Surface> Outline<S> {
    // Makes a call.
    pub fn make(&mut self, stations: &mut [Station], edits: &mut [EditRecord], call: Call) -> Answer
        ensures left { left result self.new.frame stations.new edits.new ≡ done_of (S.edges self.old.surface) (S.whole self.old.surface) self.old.frame stations.old edits.old call }
        ensures surface { self.new.surface ≡ self.old.surface }
        ensures few { Affordable (cost_in result) }
    {
        match call {
            Call::Add { lat, lon } => self.add(stations, edits, lat, lon).map(Done::Edited),
            Call::Move { place, lat, lon } => {
                self.move_to(stations, edits, place, lat, lon)
                    .map(Done::Edited)
            }
            Call::Drop { place } => self.drop_at(stations, edits, place).map(Done::Edited),
            Call::TakeBack => self.take_back(stations, edits).map(Done::Edited),
            Call::Measure { sign } => self.measure(stations, edits, sign).map(Done::Measured),
        }
    }
}

// Makes calls one after the other, as many as there are slots for their answers, and writes each
// answer into its slot. Answers how many were made. The caller lends both rows, so that neither holds
// the other's length.
fn make_each<S: Surface>(
    outline: &mut Outline<S>,
    stations: &mut [Station],
    edits: &mut [EditRecord],
    calls: &[Call],
    answers: &mut [Answer],
) -> usize
    ensures made { result ≡ calls_made calls.now answers.old }
    ensures left { replayed (Ok result) stations.new edits.new answers.new ≡ replay_from None (ran (S.edges outline.old.surface) (S.whole outline.old.surface) outline.old.frame stations.old edits.old (take result calls.now)) result stations.old edits.old answers.old }
{
    let made = calls.len().min(answers.len());
    // By index: of slots that a zip with `iter_mut` wrote, a proof knows nothing.
    for i in 0..made {
        answers[i] = outline.make(stations, edits, calls[i]);
    }
    made
}

// Opens an outline and makes calls on it one after the other, as many as there are slots for
// their answers. Refused where the opening is; then nothing changes.
pub fn replay<S: Surface + Drop>(
    surface: S,
    winding: Winding,
    stations: &mut [Station],
    edits: &mut [EditRecord],
    calls: &[Call],
    answers: &mut [Answer],
) -> Result<usize, Refusal>
    ensures left { replayed result stations.new edits.new answers.new ≡ replay_of (S.edges surface) (S.whole surface) winding stations.old edits.old calls.now answers.old }
    ensures law { IfOk result (λ n. AnswersAgree (S.edges surface) (S.whole surface) winding (lengths_of stations.old edits.old) empty_book (take n calls.now) (take n answers.new)) }
{
    let mut outline = Outline::open(surface, winding, stations.len(), edits.len())?;
    Ok(make_each(&mut outline, stations, edits, calls, answers))
}
