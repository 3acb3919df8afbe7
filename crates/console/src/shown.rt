//! Figures and the text of others, as a person reads them.

ghost use Rattle.std.specs.Prelude.{◌≡◌, Some, codes};
ghost use Rattle.std.specs.Str.{IsUtf8, IsTrimAscii};
ghost use Rattle.console.specs.Shown.{many_of, letter_shown, text_shown, alone_shown, entry_shown};

use labels::VisibleLabel;
use search::StuckState;
use std::fmt;

/// A number of things, in the singular or the plural.
#[derive(Clone, Copy)]
pub struct Many(pub u64, pub &'static str);

impl fmt::Display for Many {
    ghost output = { λ m. Some (many_of m.0 m.1.now) };

    fn fmt<W: fmt::Write>(&self, f: &mut fmt::Formatter<W>) -> fmt::Result {
        let Many(many, thing) = *self;
        let ending = if many == 1 { "" } else { "s" };
        write!(f, "{many} {thing}{ending}")
    }
}

/// What is shown of a line that is no text.
pub const NO_TEXT: &str = "text that is not UTF-8";

// The most characters that are shown of a text.
const SHOWN: usize = 80;

/// Text of others, cut where it is long and without what would move the cursor.
#[derive(Clone, Copy)]
pub struct Shown<'a>(pub &'a str);

impl<'a> Shown<'a> {
    /// A line of an input, without the blanks around it.
    pub fn line(line: &'a [u8]) -> Shown<'a>
        ensures text { IsUtf8 line.now → IsTrimAscii line.now result.0.now }
        ensures other { ¬ (IsUtf8 line.now) → result.0.now ≡ codes "text that is not UTF-8" }
    {
        match std::str::from_utf8(line) {
            Ok(text) => Shown(text.trim_ascii()),
            Err(_) => Shown(NO_TEXT),
        }
    }
}

// A letter, or a question mark for one that would move the cursor.
fn still(letter: char) -> char
    ensures { result ≡ letter_shown letter }
{
    if letter.is_control() { '?' } else { letter }
}

impl fmt::Display for Shown<'_> {
    ghost output = { λ s. Some (text_shown s.0.now) };

    fn fmt<W: fmt::Write>(&self, f: &mut fmt::Formatter<W>) -> fmt::Result {
        for letter in self.0.chars().take(SHOWN) {
            f.write_char(still(letter))?;
        }
        // No further than one character more is looked.
        if self.0.chars().nth(SHOWN).is_some() {
            f.write_str("..")?;
        }
        Ok(())
    }
}

// Where a table can get stuck alone, as a line.
#[derive(Clone, Copy)]
struct Alone(Option<StuckState>);

impl fmt::Display for Alone {
    ghost output = { λ a. Some (alone_shown a.0) };

    fn fmt<W: fmt::Write>(&self, f: &mut fmt::Formatter<W>) -> fmt::Result {
        match self.0 {
            None => writeln!(f, "  alone it cannot get stuck"),
            Some(found) => {
                let (state, label) = (found.state, VisibleLabel(found.label));
                writeln!(
                    f,
                    "  alone it can get stuck in state {state}, waiting for {label}"
                )
            }
        }
    }
}

/// A table under its number, what it holds, and where it can get stuck alone.
#[derive(Clone, Copy)]
pub struct Entry {
    pub number: usize,
    pub states: u8,
    pub start: u8,
    /// How many moves it has.
    pub moves: usize,
    pub stuck: Option<StuckState>,
}

impl fmt::Display for Entry {
    ghost output = { λ e. Some (entry_shown e) };

    fn fmt<W: fmt::Write>(&self, f: &mut fmt::Formatter<W>) -> fmt::Result {
        let (number, start) = (self.number, self.start);
        let states = Many(self.states as u64, "state");
        let moves = Many(self.moves as u64, "move");
        let alone = Alone(self.stuck);
        write!(
            f,
            "  table {number}: {states}, start {start}, {moves}\n{alone}"
        )
    }
}
