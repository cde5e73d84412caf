// The perimeter and the area of an outline on an ellipsoid or on a plate, line by line from standard
// input.
#![tactic(auto)]

ghost use Rattle.std.specs.Prelude.{◌≡◌, OnOk};
ghost use Rattle.text.specs.Words.{lines_of};
ghost use Rattle.planimeter.specs.Steps.{Drawn};

mod lines;
mod options;
mod steps;

use anyhow::{Context, anyhow};
use functions::SeriesSet;
use geodesic::Geodesic;
use lines::read;
use options::{Flag, Ground, Options};
use polygon::{Figures, PolygonArea};
use std::{env, fmt, io};
use steps::offer;
use surface::{Plate, Refusal, Surface};
use text::{Pattern, decimal};

// The number that a flag wants as its next word.
fn wanted(word: Option<String>) -> anyhow::Result<f64> {
    word.and_then(|word| decimal(word.as_str()))
        .context("-k wants a scale, -e a radius and a flattening")
}

// The options that the command line switches.
fn read_options(rt: &HostRuntime) -> anyhow::Result<Options> {
    let mut options = Options::default();
    let mut words = env::args(rt)?;
    words.next();
    while let Some(word) = words.next() {
        let flag: Flag = word.as_str().parse()?;
        options = match flag {
            Flag::Reverse | Flag::Sign => options.switched(flag),
            Flag::Scale => options.drawn_on(Ground::Plate(wanted(words.next())?)),
            Flag::Shape => {
                let (a, f) = (wanted(words.next())?, wanted(words.next())?);
                options.drawn_on(Ground::Ellipsoid(a, f))
            }
        };
    }
    Ok(options)
}

// Figures as they are printed: with the bit patterns of the perimeter and the area. `edits` prints
// each of these lines after a name.
#[derive(Clone, Copy, PartialEq, Debug)]
struct Told(Figures);

impl fmt::Display for Told {
    fn fmt<W: fmt::Write>(&self, f: &mut fmt::Formatter<W>) -> fmt::Result {
        let Figures {
            perimeter,
            area,
            count,
        } = self.0;
        writeln!(f, "points {count}")?;
        writeln!(f, "perimeter {perimeter} {}", Pattern::from(perimeter))?;
        write!(f, "area {area} {}", Pattern::from(area))
    }
}

// Feeds the polygon line by line, and prints what became of each. Surface and winding stay, told here
// as in `offer`.
fn trace<S: Surface>(
    rt: &HostRuntime,
    polygon: &mut PolygonArea<S>,
    text: &str,
) -> anyhow::Result<()>
    ensures drawn { OnOk result (Drawn (S.edges polygon.old.surface) polygon.old.traverse (lines_of text.now) polygon.new.traverse) }
    ensures surface { polygon.new.surface ≡ polygon.old.surface }
    ensures winding { polygon.new.winding ≡ polygon.old.winding }
{
    let mut points: usize = 0;
    // Numbered from 0: a zip with 1.. ends where the numbers end, and need not meet each line.
    for (index, line) in text::lines(text).enumerate() {
        let number = index + 1;
        match offer(polygon, read(line)) {
            Ok(None) => {}
            Ok(Some(_)) => {
                points += 1;
                println!(rt; "line {number}: point {points} added")?;
            }
            Err(fault) => println!(rt; "line {number}: {fault}")?,
        }
    }
    Ok(())
}

// Draws the outline of a text on a surface, and prints what it measures.
fn measure<S: Surface + Drop>(
    rt: &HostRuntime,
    surface: S,
    options: Options,
    text: &str,
) -> anyhow::Result<()> {
    let mut polygon = PolygonArea::new(surface, options.winding);
    trace(rt, &mut polygon, text)?;
    println!(rt; "{}", Told(polygon.compute(options.signed)))?;
    Ok(())
}

// That the ground is refused.
fn refused(refusal: Refusal) -> anyhow::Error {
    anyhow!("ground refused {refusal}")
}

fn run(rt: &HostRuntime) -> anyhow::Result<()> {
    let options = read_options(rt)?;
    let text = io::read_to_string(rt.alloc(), rt.stdin())?;
    match options.surface {
        Ground::Ellipsoid(a, f) => {
            let geodesic = Geodesic::new(SeriesSet, a, f).map_err(refused)?;
            measure(rt, geodesic, options, text.as_str())
        }
        Ground::Plate(scale) => {
            let plate = Plate::new(scale).map_err(refused)?;
            measure(rt, plate, options, text.as_str())
        }
    }
}

fn main(rt: HostRuntime) -> anyhow::Result<()> {
    run(&rt)
}
