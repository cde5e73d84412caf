// The inverse problem on WGS84, line by line from standard input, printed as GeographicLib's
// GeodSolve -i prints it.
#![tactic(auto)]

mod answers;
mod lines;
mod options;

use answers::{Solved, tell};
use anyhow::Context;
use functions::SeriesSet;
use geodesic::{Bearings, Geodesic};
use geomath::ang_normalize;
use lines::read;
use options::{Flag, Options};
use std::{env, fmt, io};

// The options that the command line switches.
fn read_options(rt: &HostRuntime) -> anyhow::Result<Options> {
    let mut options = Options::default();
    let mut words = env::args(rt)?;
    words.next();
    while let Some(word) = words.next() {
        options = match word.as_str().parse()? {
            Flag::Full => options.full(),
            Flag::Precision => {
                let digits = words
                    .next()
                    .context("-p wants a number of digits after it")?;
                options.precise(digits.as_str().parse()?)
            }
        };
    }
    Ok(options)
}

// A geodesic as it is printed.
#[derive(Clone, Copy, PartialEq, Debug)]
struct Told {
    solved: Solved,
    options: Options,
}

impl Told {
    // Both bearings and the distance.
    fn short<W: fmt::Write>(&self, f: &mut fmt::Formatter<W>) -> fmt::Result {
        let r = self.solved.figures;
        let Bearings { azi1, azi2 } = r.directions;
        let digits = self.options.digits;
        let fine = digits.saturating_add(5);
        write!(f, "{azi1:.fine$} {azi2:.fine$} {:.digits$}", r.s12)
    }

    // The points, their longitudes within half a turn, with the bearings there; then distance,
    // arc, reduced length, scales and area.
    fn full<W: fmt::Write>(&self, f: &mut fmt::Formatter<W>) -> fmt::Result {
        let Solved { ends, figures: r } = self.solved;
        let Bearings { azi1, azi2 } = r.directions;
        let digits = self.options.digits;
        let fine = digits.saturating_add(5);
        let finest = digits.saturating_add(7);
        let coarse = digits.saturating_sub(7);
        let lon1 = ang_normalize(ends.lon1);
        let lon2 = ang_normalize(ends.lon2);
        write!(f, "{:.fine$} {lon1:.fine$} {azi1:.fine$} ", ends.lat1)?;
        write!(f, "{:.fine$} {lon2:.fine$} {azi2:.fine$} ", ends.lat2)?;
        write!(f, "{:.digits$} {:.fine$} {:.digits$} ", r.s12, r.a12, r.m12)?;
        write!(
            f,
            "{:.finest$} {:.finest$} {:.coarse$}",
            r.M12, r.M21, r.S12
        )
    }
}

impl fmt::Display for Told {
    fn fmt<W: fmt::Write>(&self, f: &mut fmt::Formatter<W>) -> fmt::Result {
        if self.options.full {
            self.full(f)
        } else {
            self.short(f)
        }
    }
}

// Prints what is told of each line.
fn solve_lines(
    rt: &HostRuntime,
    geodesic: &Geodesic<SeriesSet>,
    options: Options,
    text: &str,
) -> anyhow::Result<()> {
    for (number, line) in (1_usize..).zip(text::lines(text)) {
        match tell(geodesic, read(line)) {
            Ok(None) => {}
            Ok(Some(solved)) => println!(rt; "{}", Told { solved, options })?,
            Err(fault) => println!(rt; "line {number}: {fault}")?,
        }
    }
    Ok(())
}

fn run(rt: &HostRuntime) -> anyhow::Result<()> {
    let options = read_options(rt)?;
    let geodesic = Geodesic::wgs84(SeriesSet)
        .ok()
        .context("the ellipsoid is refused")?;
    let text = io::read_to_string(rt.alloc(), rt.stdin())?;
    solve_lines(rt, &geodesic, options, text.as_str())
}

fn main(rt: HostRuntime) -> anyhow::Result<()> {
    run(&rt)
}
