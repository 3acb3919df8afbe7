#![tactic(auto)]

// Judges the cases of which some change names too or are small enough to try every relation, and writes each verdict.
use judged_lines::answer_cases;
use std::io;

fn main(rt: HostRuntime) -> io::Result<()> {
    answer_cases(&rt)
}
