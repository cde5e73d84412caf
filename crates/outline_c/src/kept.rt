// An outline as a program in C keeps it. Whatever stands in it, a call checks it before use.
ghost use Rattle.std.specs.Prelude.{◌≡◌, Some, None, MatchResult};
ghost use Rattle.outline_c.specs.declared.faults.Fault.{Fault};
ghost use Rattle.outline_c.specs.Kept.{winding_of, winding_fault, TakenUp, kept_fault, EditedBy};

use crate::faults::Fault;
use crate::grounds::{SurfaceNumber, ground_of};
use area::Winding;
use earth::Ground;
use history::{Frame, Sizes};
use outline::Outline;
use stations::Cost;
use surface::Refusal;

// The number of the surface and the scale of a plate, the number of the winding, the lengths of
// both rows, and how many stations and edit records they hold.
#[derive(Clone, Copy, PartialEq, Debug)]
#[repr(C)]
pub struct KeptOutline {
    pub scale: f64,
    pub surface: u8,
    pub winding: u8,
    pub lengths: Sizes,
    pub counts: Sizes,
}

// The winding of a number. No TryFrom: the numbers are C's, which `area` does not know.
pub fn winding_of(winding: u8) -> Result<Winding, Fault>
    ensures { MatchResult result (λ w. (winding_fault winding ≡ None) × (w ≡ winding_of winding)) (λ e. winding_fault winding ≡ Some e) }
{
    match winding {
        0 => Ok(Winding::Clockwise),
        1 => Ok(Winding::CounterClockwise),
        _ => Err(Fault::Unknown),
    }
}

impl KeptOutline {
    // The outline, where what is kept of it can be one.
    pub fn taken_up(&self) -> Result<Outline<Ground>, Fault>
        ensures { MatchResult result (λ o. TakenUp self.now o.surface o.frame) (λ e. kept_fault self.now ≡ Some e) }
    {
        let surface = SurfaceNumber::try_from(self.surface)?;
        let ground = ground_of(surface, self.scale)?;
        let winding = winding_of(self.winding)?;
        let frame = Frame {
            winding,
            lengths: self.lengths,
            counts: self.counts,
        };
        Ok(Outline::resume(ground, frame)?)
    }

    // Makes an edit on the outline, and keeps the counts that it leaves. The edit is lent: where the
    // outline cannot be taken up, the rows that it holds are known to stay.
    pub(crate) fn edited<F: FnMut(&mut Outline<Ground>) -> Result<Cost, Refusal>>(
        &mut self,
        edit: &mut F,
    ) -> Result<Cost, Fault>
        requires { F.IsAlwaysCallable edit.old }
        ensures fault { (e : Fault) → kept_fault self.old ≡ Some e → (result ≡ Err e) × (self.new ≡ self.old) × (edit.new ≡ edit.old) }
        ensures done { kept_fault self.old ≡ None → EditedBy F.FnMut edit.old edit.new self.old self.new result }
    {
        let mut outline = self.taken_up()?;
        let answer = edit(&mut outline);
        self.counts = outline.frame().counts;
        Ok(answer?)
    }
}
