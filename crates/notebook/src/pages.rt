// A notebook: the points that stand, and the lists that stood before.
ghost use Rattle.std.specs.Prelude.{◌≡◌, true, IfOk, OnOk, Vec};
ghost use Rattle.std.specs.Fn.{FnOnceTakesAtMut};
ghost use Rattle.std.specs.declared.alloc.Global.{Global};
ghost use Rattle.polygon.specs.declared.Point.{Point};
ghost use Rattle.history.specs.Book.{empty_book, book_refusal, book_after, changed, turned_back};
ghost use Rattle.notebook.specs.Pages.{book_of, fitting, Turns};

use geomath::accepted;
use history::{Call, Sizes};
use polygon::Point;
use std::alloc::{AllocError, Global};
use std::collections::VecDeque;
use std::mem::replace;
use surface::Refusal;

// The points that stand, in order, and the lists that stood before, the newest first.
#[derive(Drop)]
pub struct Notebook {
    heap: Global,
    standing: Vec<Point>,
    past: VecDeque<Vec<Point>>,
}

impl Notebook {
    // A notebook of an outline with no points.
    pub fn new(heap: Global) -> Notebook
        ensures { book_of result ≡ empty_book }
    {
        Notebook {
            heap,
            standing: Vec::new(heap),
            past: VecDeque::new(heap),
        }
    }

    // The points that stand.
    pub fn standing(&self) -> &[Point]
        ensures { result.now ≡ (book_of self.now).standing }
    {
        &self.standing
    }

    // Why a call is refused, where the rows were opened with some lengths and are found with others.
    // None where it is not refused, as `book_refusal` says.
    pub fn refusal(&self, lengths: Sizes, found: Sizes, call: Call) -> Option<Refusal>
        ensures { result ≡ book_refusal lengths found (book_of self.now) call }
    {
        if found != lengths {
            return Some(Refusal::RowLength);
        }
        let count = self.standing.len();
        match call {
            Call::Add { lat, lon } if !accepted(lat, lon) => Some(Refusal::Point),
            Call::Add { .. } if count == found.stations as usize => Some(Refusal::Full),
            Call::Move { place, .. } if place >= count => Some(Refusal::Place),
            Call::Move { lat, lon, .. } if !accepted(lat, lon) => Some(Refusal::Point),
            Call::Drop { place } if place >= count => Some(Refusal::Place),
            Call::TakeBack if self.past.is_empty() => Some(Refusal::NothingToTakeBack),
            _ => None,
        }
    }

    // The standing points after a change stand, and those that stood go in front of the past, of which
    // the newest `most` remain.
    fn turn<F: FnOnce(&mut Vec<Point>) -> Result<(), AllocError>>(
        &mut self,
        most: usize,
        change: F,
    ) -> Result<(), AllocError>
        requires { (points : Vec Point Global) → points.items ≡ (book_of self.old).standing → FnOnceTakesAtMut F.FnOnce change points }
        ensures { OnOk result (Turns F.FnOnce change most (book_of self.old) (book_of self.new)) }
    {
        let mut points = Vec::from_slice(self.heap, &self.standing)?;
        change(&mut points)?;
        let before = replace(&mut self.standing, points);
        self.past.push_front(before)?;
        self.past.truncate(most);
        Ok(())
    }

    // The front of the past stands again.
    fn turn_back(&mut self)
        ensures { book_of self.new ≡ turned_back (book_of self.old) (book_of self.old).past }
    {
        if let Some(before) = self.past.pop_front() {
            self.standing = before;
        }
    }

    // Writes down a call that is not refused.
    fn write(&mut self, most: usize, call: Call) -> Result<(), AllocError>
        requires { fitting (book_of self.old) call ≡ true }
        ensures { OnOk result (book_of self.new ≡ changed most (book_of self.old) call) }
    {
        match call {
            Call::Add { lat, lon } => self.turn(
                most,
                |points| Ok(points.push(Point { lat, lon })?),
            ),
            Call::Move { place, lat, lon } => self.turn(most, |points| {
                points[place] = Point { lat, lon };
                Ok(())
            }),
            Call::Drop { place } => self.turn(most, |points| {
                points.remove(place);
                Ok(())
            }),
            Call::TakeBack => {
                self.turn_back();
                Ok(())
            }
            Call::Measure { .. } => Ok(()),
        }
    }

    // Follows a call: tells why it is refused, or writes it down and tells None, as `book_refusal`
    // does.
    pub fn follow(
        &mut self,
        lengths: Sizes,
        found: Sizes,
        call: Call,
    ) -> Result<Option<Refusal>, AllocError>
        ensures answer { IfOk result (λ a. a ≡ book_refusal lengths found (book_of self.old) call) }
        ensures book { OnOk result (book_of self.new ≡ book_after lengths found (book_of self.old) call) }
    {
        if let Some(refusal) = self.refusal(lengths, found, call) {
            return Ok(Some(refusal));
        }
        self.write(lengths.edits as usize, call)?;
        Ok(None)
    }
}
