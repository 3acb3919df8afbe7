// The statement: an item for each call, and what they come to at the end.
ghost use Rattle.std.specs.Prelude.{◌≡◌};
ghost use Rattle.counter.specs.Totals.{counted, closed};

use crate::desk::Kept;
use console::shown::{Entry, Shown};
use std::io::ErrorKind;
use std::{fmt, io};
use table::Fault;

#[derive(Drop)]
pub enum Item<'a> {
    // The file that was entered, and what came of its text.
    Entered(&'a str, Result<Kept, Fault>),
    // A file that cannot be read, and why.
    Unread(&'a str, io::Error),
    // A line that is no call, with its number.
    Unclear(u64, Shown<'a>),
}

impl fmt::Display for Item<'_> {
    fn fmt<W: fmt::Write>(&self, f: &mut fmt::Formatter<W>) -> fmt::Result {
        match self {
            Item::Entered(file, entry) => {
                writeln!(f, "enter {}", Shown(file))?;
                show_outcome(entry, f)
            }
            Item::Unread(file, error) => {
                writeln!(f, "enter {}", Shown(file))?;
                match error.kind() {
                    ErrorKind::NotFound => writeln!(f, "  there is no file {}", Shown(file)),
                    _ => writeln!(f, "  the file {} cannot be read: {error}", Shown(file)),
                }
            }
            Item::Unclear(at, line) => writeln!(f, "line {at} is no call: {line}"),
        }
    }
}

fn show_outcome<W: fmt::Write>(
    outcome: &Result<Kept, Fault>,
    f: &mut fmt::Formatter<W>,
) -> fmt::Result {
    match outcome {
        Ok(kept) => write!(f, "{}", Entry::from(*kept)),
        Err(fault) => writeln!(f, "  {fault}"),
    }
}

impl From<Kept> for Entry {
    fn from(kept: Kept) -> Entry {
        let summary = kept.summary;
        Entry {
            number: kept.number,
            states: summary.states,
            start: summary.start,
            moves: summary.moves,
            stuck: kept.stuck,
        }
    }
}

// What all the calls come to.
#[derive(Clone, Copy, PartialEq, Eq, Default)]
pub struct Totals {
    kept: u64,
    refused: u64,
    unread: u64,
    unclear: u64,
}

impl Totals {
    // Counts what leaves no trace at the desk.
    pub fn count(&mut self, item: &Item<'_>)
        ensures { self.new ≡ counted self.old item.now }
    {
        match item {
            Item::Entered(..) => {}
            Item::Unread(..) => self.unread = self.unread.saturating_add(1),
            Item::Unclear(..) => self.unclear = self.unclear.saturating_add(1),
        }
    }

    // Takes over what the desk has counted.
    pub fn close(&mut self, kept: usize, refused: u64)
        ensures { self.new ≡ closed self.old kept refused }
    {
        self.kept = kept as u64;
        self.refused = refused;
    }
}

impl fmt::Display for Totals {
    fn fmt<W: fmt::Write>(&self, f: &mut fmt::Formatter<W>) -> fmt::Result {
        if *self == Totals::default() {
            writeln!(f, "Each line of the input is a call: enter FILE")?;
            return writeln!(
                f,
                "It reads the table in FILE and keeps it, or says why the text is refused."
            );
        }
        writeln!(f)?;
        writeln!(f, "texts kept: {}, refused: {}", self.kept, self.refused)?;
        if self.unread > 0 {
            writeln!(f, "files that could not be read: {}", self.unread)?;
        }
        if self.unclear > 0 {
            writeln!(
                f,
                "lines that are no call (a call is: enter FILE): {}",
                self.unclear
            )?;
        }
        Ok(())
    }
}
