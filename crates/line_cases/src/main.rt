#![tactic(auto)]

// Makes the call that each line of the input names, and writes the length of the line and what both buffers hold then.
mod answer;
mod case;

use answer::Answer;
use listed::lines::answer_lines;
use std::io;

fn main(rt: HostRuntime) -> io::Result<()> {
    let alloc = rt.alloc();
    answer_lines(&rt, |line| Answer::of(alloc, line))
}
