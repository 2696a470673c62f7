// Reads a rack file on standard input and prints what it holds, or the number with which it is refused.
#![tactic(auto)]

use rackfile::report;
use std::io::Read;

fn run(rt: &HostRuntime) -> anyhow::Result<()> {
    let mut bytes = Vec::new(rt.alloc());
    rt.stdin().read_to_end(&mut bytes)?;
    let text = report(rt.alloc(), bytes.as_slice())?;
    rt.print(text)?;
    Ok(())
}

// A fault of the system, want of memory included, is one line on standard error and status 1.
fn main(rt: HostRuntime) -> anyhow::Result<()> {
    run(&rt)
}
