ghost use Rattle.std.specs.Prelude.{◌≡◌, ◌≤◌, true, ◌++◌, length, drop, is_ok};
ghost use Rattle.table.specs.Table.{read_text, summary_of, moves_of, in_room, stored_in};
ghost use Rattle.table.specs.Lines.{next_line, move_in, Onward};
ghost use Rattle.table.specs.Write.{ReadsWhatIsWritten};
ghost use Rattle.table.specs.Faults.{RefusesTheFirstFault};

use crate::fault::Fault;
use crate::line::{Line, Stage};
use crate::reader::Reader;
use source::table::Move;

/// No text of a table has more bytes.
pub const LONGEST: usize = 40_960;

/// What is known of a table before its moves are stored.
#[derive(Clone, Copy, PartialEq, Eq, Debug)]
pub struct Summary {
    pub states: u8,
    pub start: u8,
    pub moves: usize,
}

/// A text with what was found in it, so that its moves can be stored.
#[derive(Clone, Copy)]
pub struct Checked<'a> {
    text: &'a [u8],
    found: Result<Summary, Fault>,
    ghost told: { found ≡ summary_of (read_text text.now) },
}

/// Finds what a text says of its table, or the first fault in it.
pub fn check<'a>(text: &'a [u8]) -> Checked<'a>
    ensures same { result.text.now ≡ text.now }
    ensures value { result.found ≡ summary_of (read_text text.now) }
    ensures reads { ReadsWhatIsWritten }
    ensures refuses { RefusesTheFirstFault }
{
    let found = summarize(text);
    Checked { text, found }
}

impl Checked<'_> {
    /// What was found, or the first fault.
    pub fn found(&self) -> Result<Summary, Fault>
        ensures { result ≡ summary_of (read_text self.now.text.now) }
    {
        self.found
    }

    /// Writes the moves, if the text has no fault and there is room; else it writes nothing.
    pub fn store(&self, moves: &mut [Move]) -> Result<Summary, Fault>
        ensures value { result ≡ in_room (length moves.old) (summary_of (read_text self.now.text.now)) }
        ensures stored { moves.new ≡ stored_in result (moves_of (read_text self.now.text.now)) moves.old }
    {
        let summary = self.found?;
        if summary.moves > moves.len() {
            return Err(Fault::NoRoom);
        }
        fill(self.text, moves);
        Ok(summary)
    }
}

/// Counts the moves, so that their places can be made before they are stored.
fn summarize(text: &[u8]) -> Result<Summary, Fault>
    ensures { result ≡ summary_of (read_text text.now) }
{
    if text.len() > LONGEST {
        return Err(Fault::TooLong);
    }
    let mut reader = Reader::new(text);
    while let Some(read) = reader.next() {
        read?;
    }
    match reader.stage {
        Stage::BeforeHead => Err(Fault::Unended { line: reader.line }),
        // The reader stands a line past the last move, and the moves begin in line 2.
        Stage::AfterHead(head) => Ok(Summary {
            states: head.states,
            start: head.start,
            moves: reader.line - 2,
        }),
    }
}

/// Writes the moves of a text in which there is no fault, as their places are known to be there.
fn fill(text: &[u8], moves: &mut [Move])
    requires sound { is_ok (read_text text.now) ≡ true }
    requires room { length (moves_of (read_text text.now)) ≤ length moves.old }
    ensures { moves.new ≡ moves_of (read_text text.now) ++ drop (length (moves_of (read_text text.now))) moves.old }
{
    let mut reader = Reader::new(text);
    // The first line has no move.
    let _ = reader.next();
    for place in moves.iter_mut() {
        let Some(step) = next_move(&mut reader) else {
            return;
        };
        *place = step;
    }
}

/// The move in the next line, and nothing where there is another line or none.
fn next_move(reader: &mut Reader<'_>) -> Option<Move>
    ensures value { result ≡ move_in (next_line reader.old) }
    ensures onward { Onward (next_line reader.old) reader.old reader.new }
{
    match reader.next() {
        Some(Ok(Line::Step(step))) => Some(step),
        _ => None,
    }
}
