#![tactic(auto)]

// Prints the verdict on the two tables in the standard input, as one line.
use console::input::read_text;
use installer::{LINE_ROOM, verdict_line_of_input};
use std::io;
use std::io::Write;

// Enough for two tables of 256 states together.
const WORKSPACE: usize = 65_536;

fn main(rt: HostRuntime) -> io::Result<()> {
    let alloc = rt.alloc();
    let input = read_text(alloc, rt.stdin())?;
    if input.is_empty() {
        eprintln!(rt;
            "standin wants two tables on its standard input, the module's first, with an empty line between them"
        )?;
    }
    let mut workspace = vec![in alloc; 0; WORKSPACE]?;
    let mut line = [0; LINE_ROOM];
    let length = verdict_line_of_input(input.as_slice(), workspace.as_mut_slice(), &mut line);
    rt.stdout().write_all(&line[0..length])
}
