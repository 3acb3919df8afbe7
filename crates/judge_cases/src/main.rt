#![tactic(auto)]

// Judges what each line of the input names, and writes the verdict and the workspace.
use judged_lines::answer_cases;
use std::io;

fn main(rt: HostRuntime) -> io::Result<()> {
    answer_cases(&rt)
}
