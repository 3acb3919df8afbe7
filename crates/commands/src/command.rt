//! What a line of the input asks for.

ghost use Rattle.std.specs.Prelude.{IfSome};
ghost use Rattle.commands.specs.Lines.{Helper, Makes, Says};

use crate::names::names_of;
use crate::words::words_of;
use calls::Pile;
use table::small_figure;

/// A call on a house, as a line makes it.
// Not a `Request<&str>`: a line does not say how long the workspace of a fit is.
#[derive(Clone, Copy, PartialEq, Eq, Debug)]
pub enum Command<'a> {
    /// Read the table in this file, and keep it.
    Enter(&'a str),
    /// Put a table on a seat as its contract.
    Seat(u8, u8),
    /// Fit a pile at a seat.
    Fit(u8, Pile),
    /// Take away what is fitted at a seat.
    Unfit(u8),
    /// Empty a seat.
    Clear(u8),
}

/// A line that is no call.
#[derive(Clone, Copy, PartialEq, Eq, Debug)]
pub struct Unclear;

/// The call that a line makes, or none if the line is blank. A call is its name and what it is given.
pub fn parse(line: &str) -> Result<Option<Command<'_>>, Unclear>
    ensures { Says line.now result }
{
    let words = words_of(line);
    if words.is_empty() {
        return Ok(None);
    }
    command_of(words.as_slice()).map(Some).ok_or(Unclear)
}

fn command_of<'a>(words: &[&'a str]) -> Option<Command<'a>>
    ensures { IfSome result (λ c. Makes words.now c) }
{
    match words {
        ["enter", file] => Some(Command::Enter(file)),
        ["seat", s, c] => Some(Command::Seat(
            small_figure(s.as_bytes())?,
            small_figure(c.as_bytes())?,
        )),
        ["fit", s, m, h, names] => Some(Command::Fit(
            small_figure(s.as_bytes())?,
            Pile {
                table: small_figure(m.as_bytes())?,
                helper: helper_of(h)?,
                hidden: names_of(names.as_bytes())?,
            },
        )),
        ["unfit", s] => Some(Command::Unfit(small_figure(s.as_bytes())?)),
        ["clear", s] => Some(Command::Clear(small_figure(s.as_bytes())?)),
        _ => None,
    }
}

/// The helper that a word names; `-` is none.
fn helper_of(word: &str) -> Option<Option<u8>>
    ensures { IfSome result (λ h. Helper word.now h) }
{
    match word {
        "-" => Some(None),
        _ => small_figure(word.as_bytes()).map(Some),
    }
}
