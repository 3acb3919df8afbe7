//! Judges what a line names, and shows the verdict and the workspace that it leaves as one line.
#![tactic(auto)]

pub mod case;
pub mod judged;
pub mod piles;

use crate::piles::answer_to;
use listed::lines::answer_lines;
use std::io;

/// Writes the verdict and the workspace of each case of the input.
pub fn answer_cases(rt: &HostRuntime) -> io::Result<()> {
    let alloc = rt.alloc();
    answer_lines(rt, |line| answer_to(alloc, line))
}
