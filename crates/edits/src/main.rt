// Draws an outline by calls, one a line of standard input, and tells the answer to each. Beside the
// figures of a measure stand those of a new polygon that is fed the standing points alone.
#![tactic(auto)]

ghost use Rattle.std.specs.Prelude.{Some};
ghost use Rattle.edits.specs.Counts.{counted_text};

use anyhow::anyhow;
use area::Winding;
use earth::Ground;
use history::{Call, Done, Measurement, Sizes};
use notebook::{Desk, same_figures};
use polygon::Figures;
use script::read;
use stations::Cost;
use std::{env, fmt, io};
use surface::Plate;
use text::{Pattern, decimal, lines};

const LENGTHS: Sizes = Sizes {
    stations: 1024,
    edits: 256,
};

const USAGE: &str = "usage: edits [-k K] < calls";

// The scale that stands after -k, if there is one.
fn read_scale(rt: &HostRuntime) -> anyhow::Result<Option<f64>> {
    let mut scale = None;
    let mut words = env::args(rt)?.skip(1);
    while let Some(word) = words.next() {
        if word.as_str() != "-k" {
            return Err(anyhow!(USAGE));
        }
        let Some(after) = words.next() else {
            return Err(anyhow!("-k wants a scale after it"));
        };
        let Some(number) = decimal(after.as_str()) else {
            return Err(anyhow!("the scale after -k is not a number"));
        };
        scale = Some(number);
    }
    Ok(scale)
}

// The WGS84 ellipsoid, or the plate of the scale.
fn read_ground(rt: &HostRuntime) -> anyhow::Result<Ground> {
    let Some(scale) = read_scale(rt)? else {
        return Ok(Ground::Earth);
    };
    match Plate::new(scale) {
        Ok(plate) => Ok(Ground::Sheet(plate)),
        Err(refusal) => Err(anyhow!(format!(in rt.alloc(); "plate refused {refusal}")?)),
    }
}

// What is told of a call that was not refused. Not a Display: one of `Call` would be `history`'s, for
// all programs.
fn done(call: Call) -> &'static str {
    match call {
        Call::Add { .. } => "added",
        Call::Move { .. } => "moved",
        Call::Drop { .. } => "dropped",
        Call::TakeBack => "taken back",
        Call::Measure { .. } => "measured",
    }
}

// How many there are of a thing, by its name for one.
#[derive(Clone, Copy, PartialEq, Eq, Hash, Debug)]
struct Counted(u32, &'static str);

impl fmt::Display for Counted {
    ghost output = { λ c. Some (counted_text c) };

    fn fmt<W: fmt::Write>(&self, f: &mut fmt::Formatter<W>) -> fmt::Result {
        let ending = if self.0 == 1 { "" } else { "s" };
        write!(f, "{} {}{ending}", self.0, self.1)
    }
}

fn print_cost(rt: &HostRuntime, number: usize, call: Call, cost: Cost) -> anyhow::Result<()> {
    let what = done(call);
    let edges = Counted(cost.edges, "edge");
    let evaluations = Counted(cost.evaluations, "evaluation");
    println!(rt; "line {number}: {what}, {edges}, {evaluations}")?;
    Ok(())
}

// Not the lines of `planimeter`: each tells whose it is.
fn print_figures(rt: &HostRuntime, whose: &str, figures: Figures) -> anyhow::Result<()> {
    let Figures {
        perimeter,
        area,
        count,
    } = figures;
    println!(rt; "  {whose} points {count}")?;
    println!(rt;
        "  {whose} perimeter {perimeter} {}",
        Pattern::from(perimeter)
    )?;
    println!(rt; "  {whose} area {area} {}", Pattern::from(area))?;
    Ok(())
}

// The figures of the outline, and those of a new polygon with the standing points.
fn print_both(rt: &HostRuntime, drawn: Figures, anew: Figures) -> anyhow::Result<()> {
    print_figures(rt, "outline", drawn)?;
    print_figures(rt, "polygon", anew)?;
    let verdict = if same_figures(drawn, anew) {
        "same patterns"
    } else {
        "PATTERNS DIFFER"
    };
    println!(rt; "  {verdict}")?;
    Ok(())
}

// Makes a call, and tells its answer.
fn make(rt: &HostRuntime, desk: &mut Desk, number: usize, call: Call) -> anyhow::Result<()> {
    let (answer, _) = desk.make(desk.lengths(), call)?;
    match answer {
        Err(refusal) => println!(rt; "line {number}: refused {refusal}")?,
        Ok(Done::Edited(cost)) => print_cost(rt, number, call, cost)?,
        Ok(Done::Measured(Measurement { figures, cost })) => {
            print_cost(rt, number, call, cost)?;
            let sign = matches!(call, Call::Measure { sign: true });
            match desk.anew(sign) {
                Ok(anew) => print_both(rt, figures, anew)?,
                Err(_) => println!(rt; "  polygon refused")?,
            }
        }
    }
    Ok(())
}

// Reads the calls line by line.
fn trace(rt: &HostRuntime, desk: &mut Desk, text: &str) -> anyhow::Result<()> {
    for (number, line) in (1..).zip(lines(text)) {
        match read(line) {
            Ok(None) => {}
            Ok(Some(call)) => make(rt, desk, number, call)?,
            Err(why) => println!(rt; "line {number}: {why}")?,
        }
    }
    Ok(())
}

fn run(rt: &HostRuntime) -> anyhow::Result<()> {
    let ground = read_ground(rt)?;
    let heap = rt.alloc();
    let text = io::read_to_string(heap, rt.stdin())?;
    let mut desk = Desk::open(heap, ground, Winding::CounterClockwise, LENGTHS)?;
    trace(rt, &mut desk, &text)
}

fn main(rt: HostRuntime) -> anyhow::Result<()> {
    run(&rt)
}
