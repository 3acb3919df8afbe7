#![tactic(auto)]

// Reads a text from each line of the input, and writes what the reader of tables answers to it.
mod read;

use listed::lines::answer_lines;
use read::Read;
use std::io;

fn main(rt: HostRuntime) -> io::Result<()> {
    let alloc = rt.alloc();
    answer_lines(&rt, |line| Read::of(alloc, line))
}
