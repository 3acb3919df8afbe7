#![tactic(auto)]

// Reads a full text as often as its argument says, and prints a sum over what was read.
mod tally;

use listed::bench;
use tally::Tally;

fn main(rt: HostRuntime) -> anyhow::Result<()> {
    let wanted = "the argument is how often the text is read";
    bench::run(&rt, "full.table", wanted, Tally::of)
}
