// Drawing a packed sheet: its edits are made on an outline, one by one, and the outline is measured.
#![tactic(auto)]

mod sheet;
mod strokes;

use polygon::Figures;
pub use sheet::draw;
use stations::Cost;
pub use strokes::{draw_edit, draw_edits};

// What a sheet comes to: the figures of its outline, and the cost of all its edits and of the
// closing edge. A measurement has the same fields, but its cost is that of the closing edge alone.
#[derive(Clone, Copy, PartialEq, Debug, Default)]
pub struct Drawing {
    pub figures: Figures,
    pub cost: Cost,
}
