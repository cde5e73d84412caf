// The book of an outline kept as plain lists, with no stations and no edit records, and the figures
// of its standing points from a new PolygonArea: what an outline is compared with. A desk has both.
#![tactic(auto)]

mod desks;
mod figures;
mod pages;

pub use desks::{Desk, NotOpened};
pub use figures::{fresh_figures, same_figures};
pub use pages::Notebook;
