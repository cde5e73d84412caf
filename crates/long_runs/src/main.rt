// Long runs of mixed calls on outlines, refused ones and rows of other lengths among them. Each answer
// is compared with the book kept as plain lists, and each measure with a new polygon.
#![tactic(auto)]

ghost use Rattle.std.specs.Prelude.{◌≡◌, ◌↔◌, IsTrue, Some};
ghost use Rattle.long_runs.specs.Tallies.{tally_of, tally_text, Agrees};

mod chance;

use anyhow::anyhow;
use area::Winding;
use chance::Chance;
use earth::Ground;
use history::{Answer, Call, Done, Sizes};
use notebook::{Desk, same_figures};
use polygon::Figures;
use std::alloc::AllocError;
use std::fmt;
use std::ops::AddAssign;
use surface::{Plate, Refusal};

// How many calls were made, how many were refused, how many measured, and how many answers differ.
#[derive(Clone, Copy, PartialEq, Eq, Hash, Debug, Default)]
struct Tally {
    calls: u32,
    refused: u32,
    measures: u32,
    differ: u32,
}

impl Tally {
    // Of one call.
    fn of(answer: Answer, agrees: bool) -> Tally
        ensures { result ≡ tally_of answer agrees }
    {
        Tally {
            calls: 1,
            refused: u32::from(answer.is_err()),
            measures: u32::from(matches!(answer, Ok(Done::Measured(_)))),
            differ: u32::from(!agrees),
        }
    }
}

impl AddAssign for Tally {
    fn add_assign(&mut self, other: Tally) {
        self.calls = self.calls.saturating_add(other.calls);
        self.refused = self.refused.saturating_add(other.refused);
        self.measures = self.measures.saturating_add(other.measures);
        self.differ = self.differ.saturating_add(other.differ);
    }
}

impl fmt::Display for Tally {
    ghost output = { λ t. Some (tally_text t) };

    fn fmt<W: fmt::Write>(&self, f: &mut fmt::Formatter<W>) -> fmt::Result {
        let Tally {
            calls,
            refused,
            measures,
            differ,
        } = *self;
        write!(
            f,
            "{calls} calls, {refused} refused, {measures} measures, {differ} differ"
        )
    }
}

// Whether an answer is the book's, and its figures those of a new polygon.
fn agrees(answer: Answer, refusal: Option<Refusal>, anew: Option<Figures>) -> bool
    ensures { IsTrue result ↔ Agrees answer refusal anew }
{
    match (answer, refusal) {
        (Err(given), Some(due)) => given == due,
        (Ok(Done::Edited(_)), None) => true,
        (Ok(Done::Measured(measurement)), None) => {
            anew.is_some_and(|figures| same_figures(measurement.figures, figures))
        }
        _ => false,
    }
}

// The lengths of the rows to hand in: mostly those at opening, now and then one slot more or less.
fn found_lengths(chance: &mut Chance, lengths: Sizes) -> Sizes {
    let Sizes { stations, edits } = lengths;
    let (stations, edits) = match chance.below(40) {
        0 => (stations.saturating_add(1), edits),
        1 => (stations.saturating_sub(1), edits),
        2 => (stations, edits.saturating_add(1)),
        3 => (stations, edits.saturating_sub(1)),
        _ => (stations, edits),
    };
    Sizes { stations, edits }
}

// Makes one call by chance, and tallies it.
fn turn(desk: &mut Desk, chance: &mut Chance) -> Result<Tally, AllocError> {
    let found = found_lengths(chance, desk.lengths());
    let count = u32::try_from(desk.standing().len()).unwrap_or(u32::MAX);
    let call = chance.call(count);
    let (answer, refusal) = desk.make(found, call)?;
    let anew = match call {
        Call::Measure { sign } => desk.anew(sign).ok(),
        _ => None,
    };
    Ok(Tally::of(answer, agrees(answer, refusal, anew)))
}

// Makes calls on a new outline over rows of these lengths.
fn run_on(rt: &HostRuntime, ground: Ground, lengths: Sizes, calls: u32) -> anyhow::Result<Tally> {
    let mut desk = Desk::open(rt.alloc(), ground, Winding::Clockwise, lengths)?;
    let mut chance = Chance::seeded(20130101);
    let mut total = Tally::default();
    for _ in 0..calls {
        total += turn(&mut desk, &mut chance)?;
    }
    Ok(total)
}

// Runs on one ground, over rows short and long, and prints the counts.
fn report(rt: &HostRuntime, name: &str, ground: Ground, calls: u32) -> anyhow::Result<()> {
    let mut total = Tally::default();
    for (stations, edits) in [(12, 8), (1, 1), (5, 0), (0, 3), (40, 64)] {
        total += run_on(rt, ground, Sizes { stations, edits }, calls)?;
    }
    println!(rt; "{name} {total}")?;
    Ok(())
}

fn run(rt: &HostRuntime) -> anyhow::Result<()> {
    // No `?`: a refusal prints its number alone.
    let Ok(plate) = Plate::new(2.5) else {
        return Err(anyhow!("the plate is refused"));
    };
    report(rt, "plate", Ground::Sheet(plate), 2000)?;
    report(rt, "WGS84", Ground::Earth, 100)
}

fn main(rt: HostRuntime) -> anyhow::Result<()> {
    run(&rt)
}
