#![tactic(auto)]

// Searches a sparse machine as often as its argument says, and prints a sum over the answers.
mod searches;

use listed::bench;
use searches::Searches;

fn main(rt: HostRuntime) -> anyhow::Result<()> {
    let wanted = "the argument is how often to search";
    bench::run(&rt, "sparse.table", wanted, Searches::of)
}
