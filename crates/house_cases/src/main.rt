#![tactic(auto)]

// Makes the calls of each line of the input in a new house, and writes what comes of each, with the seats after it.
mod call;
mod turn;

use call::call_of;
use house::House;
use std::io::{BufRead, BufReader, BufWriter, Write};
use turn::{Seats, Turn};

// Not by `answer_lines`, which writes a line once it is whole: what comes of a call is written before the next is made, so
// that a line with many calls takes no more memory. All in one function: the judge's copies make its frame large, and a
// call of it for each line would go through that frame each time.
fn main(rt: HostRuntime) -> anyhow::Result<()> {
    let alloc = rt.alloc();
    let mut out = BufWriter::new(alloc, rt.stdout())?;
    for line in BufReader::new(alloc, rt.stdin())?.split(alloc, b'\n') {
        let line = line?;
        let Ok(words) = std::str::from_utf8(line.as_slice()) else {
            writeln!(out, "unclear")?;
            continue;
        };
        let mut house = House::new();
        for (at, piece) in words.split(';').enumerate() {
            let part = if at == 0 { "" } else { ";" };
            match call_of(alloc, piece)? {
                None => write!(out, "{part}unclear")?,
                Some(call) => {
                    let turn = Turn::make(alloc, &mut house, &call)?;
                    let seats = Seats(&house);
                    write!(out, "{part}{turn} |{seats}")?;
                }
            }
        }
        writeln!(out)?;
    }
    out.flush()?;
    Ok(())
}
