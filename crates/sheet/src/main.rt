// Draws a packed sheet from standard input and tells its figures, or the first thing wrong with it.
#![tactic(auto)]

use report::sheet_text;
use std::io::Read;

// One byte more than a sheet may have: then the file is too long, however long it is.
const ENOUGH: u64 = 65537;

fn run(rt: &HostRuntime) -> anyhow::Result<()> {
    let heap = rt.alloc();
    let mut bytes = Vec::new(heap);
    rt.stdin().take(ENOUGH).read_to_end(&mut bytes)?;
    let text = sheet_text(heap, bytes.as_slice())?;
    print!(rt; "{text}")?;
    Ok(())
}

fn main(rt: HostRuntime) -> anyhow::Result<()> {
    run(&rt)
}
