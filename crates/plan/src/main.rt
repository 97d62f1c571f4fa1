// Reads a sheet from standard input, and prints a shortest plan of its task.
#![tactic(auto)]

use answer::report;
use std::io::{Read, Write};

// One byte more than the longest sheet has: with it a longer text is too long, and no more of it is read.
const MOST_READ: u64 = 65_536;

fn run(rt: &HostRuntime) -> anyhow::Result<()> {
    let heap = rt.alloc();
    let mut text = Vec::new(heap);
    rt.stdin().take(MOST_READ).read_to_end(&mut text)?;
    let answer = report(heap, text.as_slice())?;
    rt.stdout().write_all(answer.as_slice())?;
    Ok(())
}

fn main(rt: HostRuntime) -> anyhow::Result<()> {
    run(&rt)
}
