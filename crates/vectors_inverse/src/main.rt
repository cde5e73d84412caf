// Replays lists of answers of the inverse problem and of polygons: each name of the command line is a
// list. Bit by bit, but for the list of GeographicLib's answers.
#![tactic(auto)]

mod judges;
mod lists;
mod outlines;
mod rows;

use anyhow::anyhow;
use ellipsoid::shape::{WGS84_A, WGS84_F};
use functions::SeriesSet;
use geodesic::Geodesic;
use judges::{Pairs, Rounded};
use lists::{List, Subject};
use replay::{Replayed, replay, report};

// Each list has the equatorial radius of WGS84. No list's ellipsoid is refused, so no number is told.
fn geodesic_of(f: f64) -> anyhow::Result<Geodesic<SeriesSet>> {
    Geodesic::new(SeriesSet, WGS84_A, f).map_err(|_| anyhow!("the ellipsoid is refused"))
}

impl Replayed for List {
    fn report(&self, rt: &HostRuntime, name: &str) -> anyhow::Result<()> {
        match self.subject() {
            Subject::Pairs(f, mask) => {
                let geodesic = geodesic_of(f)?;
                report(rt, name, "differ", &Pairs { geodesic, mask })
            }
            Subject::Outlines(outlines) => report(rt, name, "differ", &outlines),
            Subject::Rounded => {
                let geodesic = geodesic_of(WGS84_F)?;
                report(rt, name, "beyond the tolerance", &Rounded { geodesic })
            }
        }
    }
}

fn main(rt: HostRuntime) -> anyhow::Result<()> {
    replay::<List>(&rt)
}
