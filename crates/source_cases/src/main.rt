#![tactic(auto)]

// Builds the pile of layers that each line of the input names, and writes what it answers to every question.
mod case;
mod piles;
mod told;

use listed::lines::answer_lines;
use std::io;

fn main(rt: HostRuntime) -> io::Result<()> {
    let alloc = rt.alloc();
    answer_lines(&rt, |line| piles::answer_to(alloc, line))
}
