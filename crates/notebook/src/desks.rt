// An outline in rows of its own, and the notebook that it is compared with.
ghost use Rattle.std.specs.Prelude.{◌≡◌, IfOk, OnOk};
ghost use Rattle.earth.specs.Grounds.{edges_on, whole_on};
ghost use Rattle.polygon.specs.Polygons.{figures_of};
ghost use Rattle.history.specs.Calls.{open_refusal, opened, left};
ghost use Rattle.history.specs.Book.{empty_book, book_refusal, book_after};
ghost use Rattle.notebook.specs.Pages.{book_of};
ghost use Rattle.notebook.specs.declared.desks.NotOpened.TheVariants.{Refused, OutOfMemory};
ghost use Rattle.notebook.specs.Desks.{answer_on, made_on, refusal_in};

use crate::figures::fresh_figures;
use crate::pages::Notebook;
use area::Winding;
use earth::Ground;
use history::{Answer, Call, Sizes};
use outline::Outline;
use polygon::{Figures, Point};
use stations::{EditRecord, Station};
use std::alloc::{AllocError, Global};
use std::error::Error;
use std::fmt;
use surface::Refusal;

// Why a desk is not opened: its rows are refused, or there is no store for them.
#[derive(Clone, Copy, PartialEq, Eq, Hash, Debug)]
pub enum NotOpened {
    Refused(Refusal),
    OutOfMemory,
}

impl From<Refusal> for NotOpened {
    ghost from_gives = { λ refusal why. why ≡ Refused refusal };

    fn from(refusal: Refusal) -> NotOpened {
        NotOpened::Refused(refusal)
    }
}

impl From<AllocError> for NotOpened {
    ghost from_gives = { λ _ why. why ≡ OutOfMemory };

    fn from(_error: AllocError) -> NotOpened {
        NotOpened::OutOfMemory
    }
}

impl fmt::Display for NotOpened {
    fn fmt<W: fmt::Write>(&self, f: &mut fmt::Formatter<W>) -> fmt::Result {
        match self {
            NotOpened::Refused(_) => f.write_str("the rows are refused"),
            NotOpened::OutOfMemory => fmt::Display::fmt(&AllocError, f),
        }
    }
}

impl Error for NotOpened {}

// Makes a call on the fronts of two rows, of the lengths that are found, or as long as there is store.
// What lies behind stays.
fn make_on(
    outline: &mut Outline<Ground>,
    stations: &mut [Station],
    edits: &mut [EditRecord],
    found: Sizes,
    call: Call,
) -> Answer
    ensures left { left result outline.new.frame stations.new edits.new ≡ made_on outline.old.surface outline.old.frame stations.old edits.old found call }
    ensures surface { outline.new.surface ≡ outline.old.surface }
{
    let station_end = stations.len().min(found.stations.into());
    let edit_end = edits.len().min(found.edits.into());
    outline.make(&mut stations[..station_end], &mut edits[..edit_end], call)
}

// An outline on a ground, over the fronts of rows with one slot more in store, and the notebook.
#[derive(Drop)]
pub struct Desk {
    // What `outline.surface` holds, which an outline does not hand out.
    surface: Ground,
    // As given at opening, and not as the outline tells them: the book is kept beside it.
    winding: Winding,
    lengths: Sizes,
    outline: Outline<Ground>,
    stations: Vec<Station>,
    edits: Vec<EditRecord>,
    notebook: Notebook,
    ghost same_surface: { outline.surface ≡ surface },
    ghost same_winding: { outline.frame.winding ≡ winding },
    ghost same_lengths: { outline.frame.lengths ≡ lengths },
}

impl Desk {
    // A desk with no points, over rows of these lengths. Refused where a row is longer than it may
    // be.
    pub fn open(
        heap: Global,
        surface: Ground,
        winding: Winding,
        lengths: Sizes,
    ) -> Result<Desk, NotOpened>
        ensures answer { refusal_in result ≡ open_refusal lengths.stations lengths.edits }
        ensures surface { IfOk result (λ d. d.surface ≡ surface) }
        ensures frame { IfOk result (λ d. d.outline.frame ≡ opened winding lengths.stations lengths.edits) }
        ensures book { IfOk result (λ d. book_of d.notebook ≡ empty_book) }
    {
        let Sizes { stations, edits } = lengths;
        let outline = Outline::open(surface, winding, stations.into(), edits.into())?;
        let nowhere = Station::first(Point { lat: 0.0, lon: 0.0 });
        let station_row = vec![in heap; nowhere; stations as usize + 1]?;
        let edit_row = vec![in heap; EditRecord::added(0); edits as usize + 1]?;
        Ok(Desk {
            surface,
            winding,
            lengths,
            outline,
            stations: station_row,
            edits: edit_row,
            notebook: Notebook::new(heap),
        })
    }

    // The lengths of the rows at opening.
    pub fn lengths(&self) -> Sizes
        ensures { result ≡ self.now.outline.frame.lengths }
    {
        self.lengths
    }

    // The points that stand, as the notebook has them.
    pub fn standing(&self) -> &[Point]
        ensures { result.now ≡ (book_of self.now.notebook).standing }
    {
        self.notebook.standing()
    }

    // Makes a call on rows of the lengths that are found, or as long as there is store, and writes it
    // down. Answers what the outline does, and why the book refuses the call, if it does. That the
    // surface stays is a clause, since a ghost field speaks of one state.
    pub fn make(
        &mut self,
        found: Sizes,
        call: Call,
    ) -> Result<(Answer, Option<Refusal>), AllocError>
        ensures answer { IfOk result (λ r. r.0 ≡ answer_on self.old.surface self.old.outline.frame self.old.stations.items self.old.edits.items found call) }
        ensures refusal { IfOk result (λ r. r.1 ≡ book_refusal self.old.outline.frame.lengths found (book_of self.old.notebook) call) }
        ensures book { OnOk result (book_of self.new.notebook ≡ book_after self.old.outline.frame.lengths found (book_of self.old.notebook) call) }
        ensures surface { self.new.surface ≡ self.old.surface }
        ensures frame { self.new.outline.frame ≡ (made_on self.old.surface self.old.outline.frame self.old.stations.items self.old.edits.items found call).frame }
        ensures stations { self.new.stations.items ≡ (made_on self.old.surface self.old.outline.frame self.old.stations.items self.old.edits.items found call).stations }
        ensures edits { self.new.edits.items ≡ (made_on self.old.surface self.old.outline.frame self.old.stations.items self.old.edits.items found call).edits }
    {
        let lengths = self.lengths();
        let answer = make_on(
            &mut self.outline,
            &mut self.stations,
            &mut self.edits,
            found,
            call,
        );
        let refusal = self.notebook.follow(lengths, found, call)?;
        Ok((answer, refusal))
    }

    // The figures of a new polygon with the points that stand. Refused where a point is.
    pub fn anew(&self, sign: bool) -> Result<Figures, Refusal>
        ensures { IfOk result (λ f. f ≡ figures_of (edges_on self.now.surface) (whole_on self.now.surface) self.now.outline.frame.winding sign (book_of self.now.notebook).standing) }
    {
        fresh_figures(self.surface, self.winding, sign, self.standing())
    }
}

#[cfg(test)]
mod tests {
    use super::*;

    const LENGTHS: Sizes = Sizes {
        stations: 3,
        edits: 2,
    };

    #[test]
    fn opens_and_adds(rt: HostRuntime) -> Result<(), NotOpened> {
        let mut desk = Desk::open(rt.alloc(), Ground::Earth, Winding::Clockwise, LENGTHS)?;
        let (answer, refusal) = desk.make(desk.lengths(), Call::Add { lat: 1.0, lon: 2.0 })?;
        assert!(rt; answer.is_ok());
        assert!(rt; refusal.is_none());
        assert_eq!(rt; desk.standing().len(), 1);
        assert!(rt; desk.anew(true).is_ok());
        Ok(())
    }
}
