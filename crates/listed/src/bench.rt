//! The frame of the programs that are timed.

use anyhow::Context;
use source::table::Move;
use std::str::FromStr;
use std::{env, fmt, fs};

// No text has room for more moves.
const MOST_READ: usize = 4096;

/// Does the work on the text of a file as often as the program's argument says, with room for the moves of any text, and
/// prints what comes of it.
pub fn run<N, T, F>(rt: &HostRuntime, file: &str, wanted: &str, work: F) -> anyhow::Result<()>
where
    N: FromStr + Drop,
    N::Err: std::error::Error,
    T: fmt::Display + Drop,
    F: FnOnce(&[u8], N, &mut [Move]) -> T,
    requires { F.IsAlwaysCallable work }
{
    let word = env::args(rt)?.nth(1).context(wanted)?;
    let turns = word.as_str().parse::<N>()?;
    let text = fs::read(rt, file)?;
    let mut moves = vec![in rt.alloc(); Move::default(); MOST_READ]?;
    println!(rt; "{}", work(text.as_slice(), turns, moves.as_mut_slice()))?;
    Ok(())
}
