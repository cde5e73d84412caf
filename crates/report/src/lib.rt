// What is printed of a packed sheet that was drawn: its figures, or the first thing wrong with it.
#![tactic(auto)]

ghost use Rattle.std.specs.Prelude.{◌≡◌, IfOk, string_bytes};
ghost use Rattle.report.specs.Reports.{figures_text, report_of, sheet_text};

use drawing::{Drawing, draw};
use packed::SheetFault;
use polygon::Point;
use stations::{EditRecord, Station};
use std::alloc::{AllocError, Global};
use text::Pattern;

// The rows on which a sheet is drawn.
const STATIONS: usize = 1024;

const EDITS: usize = 256;

// The figures, a line each: floats as bit patterns.
fn figures_text(heap: Global, drawing: Drawing) -> Result<String, AllocError>
    ensures { IfOk result (λ s. string_bytes s ≡ figures_text drawing) }
{
    let Drawing { figures, cost } = drawing;
    let count = figures.count;
    let perimeter = Pattern::from(figures.perimeter);
    let area = Pattern::from(figures.area);
    let edges = cost.edges;
    let evaluations = cost.evaluations;
    format!(in heap;
        "points {count}\nperimeter {perimeter}\narea {area}\nedges {edges}\nevaluations {evaluations}\n"
    )
}

// What is printed of a sheet that was drawn, or of its fault.
pub fn report(heap: Global, answer: Result<Drawing, SheetFault>) -> Result<String, AllocError>
    ensures { IfOk result (λ s. string_bytes s ≡ report_of answer) }
{
    match answer {
        Ok(drawing) => figures_text(heap, drawing),
        Err(fault) => format!(in heap; "refused {fault}\n"),
    }
}

// What is printed of a packed sheet that is drawn on new rows.
pub fn sheet_text(heap: Global, bytes: &[u8]) -> Result<String, AllocError>
    ensures { IfOk result (λ s. string_bytes s ≡ sheet_text bytes.now) }
{
    let nowhere = Station::first(Point { lat: 0.0, lon: 0.0 });
    let mut stations = vec![in heap; nowhere; STATIONS]?;
    let mut edits = vec![in heap; EditRecord::added(0); EDITS]?;
    let answer = draw(bytes, stations.as_mut_slice(), edits.as_mut_slice());
    report(heap, answer)
}

#[cfg(test)]
mod tests {
    use super::*;
    use std::test::Fail;

    #[test]
    fn no_points(rt: HostRuntime) -> Result<(), Fail> {
        let text = sheet_text(rt.alloc(), &[0x1d, 0, 0])?;
        assert_eq!(rt;
            text.as_str(),
            "points 0\nperimeter 0000000000000000\narea 8000000000000000\nedges 1\nevaluations 0\n"
        );
        Ok(())
    }

    #[test]
    fn an_edit_is_missing(rt: HostRuntime) -> Result<(), Fail> {
        let text = sheet_text(rt.alloc(), &[0x1d, 0, 1])?;
        assert_eq!(rt; text.as_str(), "refused bits 9 edit 1 bit 24\n");
        Ok(())
    }
}
