// Packs a text of calls into a sheet: from standard input to standard output.
#![tactic(auto)]

mod edits;
mod options;
mod sheets;

use options::Options;
use sheets::sheet_of;
use std::io::Write;
use std::{env, io};

// The options that the command line switches.
fn read_options(rt: &HostRuntime) -> anyhow::Result<Options> {
    let mut options = Options::default();
    for word in env::args(rt)?.skip(1) {
        options = options.switched(word.parse()?);
    }
    Ok(options)
}

fn run(rt: &HostRuntime) -> anyhow::Result<()> {
    let options = read_options(rt)?;
    let heap = rt.alloc();
    let text = io::read_to_string(heap, rt.stdin())?;
    let bytes = sheet_of(heap, options, text.as_str())?;
    rt.stdout().write_all(bytes.as_slice())?;
    Ok(())
}

fn main(rt: HostRuntime) -> anyhow::Result<()> {
    run(&rt)
}
