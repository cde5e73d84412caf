// Replays lists of answers bit by bit: each name of the command line is a function of the series
// set and its list.
#![tactic(auto)]

mod named;

use named::Function;
use replay::replay;

fn main(rt: HostRuntime) -> anyhow::Result<()> {
    replay::<Function>(&rt)
}
