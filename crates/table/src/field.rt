ghost use Rattle.std.specs.Prelude.{◌≡◌, ◌<◌, IfOk};
ghost use Rattle.table.specs.declared.fault.Fault.{Fault};
ghost use Rattle.table.specs.Table.{number_at, states_at, way_at, label_at};

use crate::fault::Fault;
use crate::figure::small_figure;
use labels::{NAMES, TAU};

/// A field of a line, with the line and its number in the line.
#[derive(Clone, Copy)]
pub(crate) struct Field<'a> {
    line: usize,
    number: u8,
    bytes: &'a [u8],
}

/// What a move does with its name.
#[derive(Clone, Copy)]
pub(crate) enum Way {
    Receive,
    Send,
    Silent,
}

impl<'a> Field<'a> {
    pub(crate) fn new(line: usize, number: u8, bytes: &'a [u8]) -> Field<'a>
        ensures line { result.line ≡ line }
        ensures number { result.number ≡ number }
        ensures bytes { result.bytes.now ≡ bytes.now }
    {
        Field {
            line,
            number,
            bytes,
        }
    }

    /// The figure below the limit.
    #[tactic(auto, using(crate::proofs::Figures::figure_kept))]
    pub(crate) fn figure(self, limit: u8) -> Result<u8, Fault>
        ensures value { result ≡ number_at limit self.entry.line self.entry.number self.entry.bytes.now }
        ensures below { IfOk result (λ n. n < limit) }
    {
        small_figure(self.bytes)
            .filter(|n| *n < limit)
            .ok_or(self.no_figure())
    }

    /// The number of states, of which a table has at least one.
    pub(crate) fn states(self) -> Result<u8, Fault>
        ensures { result ≡ states_at self.entry.line self.entry.number self.entry.bytes.now }
    {
        small_figure(self.bytes)
            .filter(|n| *n > 0)
            .ok_or(self.no_figure())
    }

    /// The way is one byte, and one of three.
    pub(crate) fn way(self) -> Result<Way, Fault>
        ensures { result ≡ way_at self.entry.line self.entry.bytes.now }
    {
        let none = Fault::Way { line: self.line };
        let [b] = self.bytes else {
            return Err(none);
        };
        // A rule of the project: the way is matched as a character.
        match *b as char {
            '?' => Ok(Way::Receive),
            '!' => Ok(Way::Send),
            '-' => Ok(Way::Silent),
            _ => Err(none),
        }
    }

    /// The label that a way makes with this name.
    pub(crate) fn label(self, way: Way) -> Result<u8, Fault>
        ensures { result ≡ label_at self.entry.line self.entry.number way self.entry.bytes.now }
    {
        match way {
            Way::Receive => self.figure(NAMES),
            Way::Send => Ok(self.figure(NAMES)? + NAMES),
            Way::Silent if self.bytes.is_empty() => Ok(TAU),
            Way::Silent => Err(Fault::SilentName { line: self.line }),
        }
    }

    fn no_figure(self) -> Fault
        ensures { result ≡ Fault.Figure self.entry.line self.entry.number }
    {
        Fault::Figure {
            line: self.line,
            field: self.number,
        }
    }
}
