// Replays lists of answers bit by bit: each name of the command line is a function and its list.
#![tactic(auto)]

mod functions;

use functions::Function;
use replay::replay;

fn main(rt: HostRuntime) -> anyhow::Result<()> {
    replay::<Function>(&rt)
}
