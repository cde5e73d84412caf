// What an outline keeps beside its surface, the calls on it and their answers. The definitions say
// what each call does, and what the book of an outline says of a whole history of calls.
#![tactic(auto)]

ghost use Rattle.std.specs.Prelude.{◌≡◌};
ghost use Rattle.history.specs.Expenses.{cost_of_done};

use area::Winding;
use polygon::Figures;
use stations::Cost;
use surface::Refusal;

// A number for each of the two rows: how long it is, or how many of its slots are in use.
#[derive(Clone, Copy, PartialEq, Eq, Debug, Default, Hash)]
#[repr(C)]
pub struct Sizes {
    pub stations: u16,
    pub edits: u16,
}

// What an outline keeps beside its surface: its winding, the lengths of its rows at opening, and
// how many stations and edit records they hold.
#[derive(Clone, Copy, PartialEq, Eq, Debug, Hash)]
pub struct Frame {
    pub winding: Winding,
    pub lengths: Sizes,
    pub counts: Sizes,
}

// What a measure answers: the figures, and what the closing edge cost.
#[derive(Clone, Copy, PartialEq, Debug, Default)]
#[repr(C)]
pub struct Measurement {
    pub figures: Figures,
    pub cost: Cost,
}

// A call on an outline, with its arguments.
#[derive(Clone, Copy, PartialEq, Debug)]
pub enum Call {
    Add { lat: f64, lon: f64 },
    Move { place: usize, lat: f64, lon: f64 },
    Drop { place: usize },
    TakeBack,
    Measure { sign: bool },
}

// What a call did: an edit was made, at some cost, or a measure.
#[derive(Clone, Copy, PartialEq, Debug)]
pub enum Done {
    Edited(Cost),
    Measured(Measurement),
}

impl Done {
    // What it cost.
    pub fn cost(&self) -> Cost
        ensures { result ≡ cost_of_done self.now }
    {
        match self {
            Done::Edited(cost) => *cost,
            Done::Measured(measurement) => measurement.cost,
        }
    }
}

// What a call answers.
pub type Answer = Result<Done, Refusal>;
