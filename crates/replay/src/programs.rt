// The programs that replay lists: each name of the command line has its list in a file.
ghost use Rattle.std.specs.Prelude.{Some, codes};

use crate::{Answers, Bitwise, Judge, Tally, count_lines};
use std::error::Error;
use std::str::FromStr;
use std::{env, fmt, fs};

// A name that no function has.
#[derive(Clone, Copy, PartialEq, Eq, Debug, Hash)]
pub struct NoSuchFunction;

impl fmt::Display for NoSuchFunction {
    ghost output = { λ _. Some (codes "no such function") };

    fn fmt<W: fmt::Write>(&self, f: &mut fmt::Formatter<W>) -> fmt::Result {
        write!(f, "no such function")
    }
}

impl Error for NoSuchFunction {}

// Counts the lines of a list that a judge does not meet, and prints how many there are.
pub fn report<J: Judge>(rt: &HostRuntime, name: &str, how: &str, judge: &J) -> anyhow::Result<()> {
    let path = format!(in rt.alloc(); "{name}.txt")?;
    let text = fs::read_to_string(rt, path.as_str())?;
    let Tally {
        cases,
        differing,
        first,
    } = count_lines(judge, text.as_str());
    println!(rt; "{name} {cases} cases, {differing} {how}")?;
    if let Some(first) = first {
        println!(rt; "{name} first at line {first}")?;
    }
    Ok(())
}

// Lists that are known by their names.
pub trait Replayed: FromStr {
    // Prints what becomes of the list of this name.
    fn report(&self, rt: &HostRuntime, name: &str) -> anyhow::Result<()>;
}

impl<F: Answers + FromStr> Replayed for F {
    fn report(&self, rt: &HostRuntime, name: &str) -> anyhow::Result<()> {
        report(rt, name, "differ", &Bitwise(self))
    }
}

// Replays lists: each name of the command line is the name of one.
pub fn replay<L: Replayed + Drop>(rt: &HostRuntime) -> anyhow::Result<()>
where
    L::Err: fmt::Display + Drop,
{
    for name in env::args(rt)?.skip(1) {
        let name = name.as_str();
        match name.parse::<L>() {
            Ok(list) => list.report(rt, name)?,
            Err(error) => println!(rt; "{name}: {error}")?,
        }
    }
    Ok(())
}
