// Reads a rule from standard input, runs it over the sheet of the examples, and prints what became of it.
#![tactic(auto)]

use anyhow::anyhow;
use runner::example::example_sheet;
use runner::owned::judge_over_chain;
use runner::report::report;
use std::io;
use std::io::Read;

// One byte more than a text may have: what is longer is refused whatever follows.
const ENOUGH: u64 = 32769;

fn read_text(rt: &HostRuntime) -> io::Result<Vec<u8>> {
    let mut text = Vec::new(rt.alloc());
    rt.stdin().take(ENOUGH).read_to_end(&mut text)?;
    Ok(text)
}

fn run(rt: &HostRuntime) -> anyhow::Result<()> {
    let heap = rt.alloc();
    let text = read_text(rt)?;
    let mut sheet = example_sheet().map_err(|_| anyhow!("the sheet is refused"))?;
    let judged = judge_over_chain(heap, &text, &mut sheet).map_err(|_| anyhow!("no memory"))?;
    let lines = report(heap, judged, &sheet)?;
    print!(rt; "{}", lines.as_str())?;
    Ok(())
}

fn main(rt: HostRuntime) -> anyhow::Result<()> {
    run(&rt)
}
