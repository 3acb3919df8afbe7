// What a source answers to every question, as one line.
ghost use Rattle.std.specs.Prelude.{◌≡◌, IfOk};
ghost use Rattle.lts.specs.Labels.{member};
ghost use Rattle.lts.specs.Machines.{told_size};
ghost use Rattle.search.specs.Found.{searched};

use labels::{LabelSet, NameSet};
use listed::sum::Sum;
use listed::untouched;
use search::{StuckState, search};
use source::refusal::Refusal;
use source::source::Source;
use std::alloc::{AllocError, Global};
use std::fmt;

// So many states are asked of a source that is too large, and one more.
const ASKED_OF_TOO_LARGE: u16 = 16;

// One more than the labels, so that a number that is none is asked too.
const ASKED_LABELS: u8 = 66;

// No more bytes of a sheet are shown.
const SHOWN: usize = 300;

#[derive(Drop)]
pub struct Told {
    size: u16,
    start: usize,
    states: Vec<State>,
    moves: Moves,
    stuck: Result<Option<StuckState>, Refusal>,
    sheet: Vec<u8>,
}

#[derive(Clone, Copy)]
struct State {
    initials: LabelSet,
    stable: bool,
}

// How many moves there are, and a sum over them.
#[derive(Clone, Copy, Default)]
struct Moves {
    many: u64,
    sum: Sum,
}

impl Moves {
    // The moves between the states up to the last.
    fn of<S: Source>(source: &S, last: u16) -> Moves {
        let mut moves = Moves::default();
        for from in 0..=last {
            moves.leave(source, from, last);
        }
        moves
    }

    fn leave<S: Source>(&mut self, source: &S, from: u16, last: u16) {
        for label in 0..ASKED_LABELS {
            self.follow(source, from, label, last);
        }
    }

    fn follow<S: Source>(&mut self, source: &S, from: u16, label: u8, last: u16) {
        for to in 0..=last {
            if source.has_move(from as usize, label, to as usize) {
                self.count(from, label, to);
            }
        }
    }

    fn count(&mut self, from: u16, label: u8, to: u16) {
        let code = (from as u64 * ASKED_LABELS as u64 + label as u64) * 256 + to as u64 + 1;
        self.many = self.many.saturating_add(1);
        self.sum.take(code);
    }
}

impl Told {
    // Asks every state and one beyond the last.
    pub fn of<S: Source>(
        alloc: Global,
        source: &S,
        names: NameSet,
        room: u16,
    ) -> Result<Told, AllocError>
        ensures size { IfOk result (λ t. t.size ≡ told_size (S.Source.means source.now)) }
        ensures start { IfOk result (λ t. t.start ≡ (S.Source.means source.now).start) }
        ensures stuck { IfOk result (λ t. t.stuck ≡ searched (S.Source.means source.now) (member names.0) room) }
    {
        let last = source
            .states()
            .map_or(ASKED_OF_TOO_LARGE, |states| states as u16);
        let mut sheet = untouched(alloc, room as usize)?;
        let stuck = search(source, names, sheet.as_mut_slice());
        Ok(Told {
            // The line shows the size as sources answer it, with 256 for too large.
            size: source.size(),
            start: source.start(),
            states: states_of(alloc, source, last)?,
            moves: Moves::of(source, last),
            stuck,
            sheet,
        })
    }
}

fn states_of<S: Source>(alloc: Global, source: &S, last: u16) -> Result<Vec<State>, AllocError> {
    (0..=last as usize)
        .map(|p| State {
            initials: source.initials(p),
            stable: source.is_stable(p),
        })
        .collect(alloc)
}

impl fmt::Display for Told {
    fn fmt<W: fmt::Write>(&self, f: &mut fmt::Formatter<W>) -> fmt::Result {
        write!(f, "{},{}", self.size, self.start)?;
        for state in self.states.iter() {
            write!(f, ";{:x} {}", state.initials.bits(), state.stable as u8)?;
        }
        // The line has 32 bits of the sum.
        write!(
            f,
            ";{},{};",
            self.moves.many,
            self.moves.sum.0 % 0x1_0000_0000
        )?;
        match self.stuck {
            Ok(None) => write!(f, "none")?,
            Ok(Some(found)) => write!(f, "{},{}", found.state, found.label)?,
            Err(refusal) => write!(f, "refused,{}", refusal.number())?,
        }
        write!(f, ";")?;
        for mark in self.sheet.iter().take(SHOWN) {
            write!(f, "{mark}")?;
        }
        Ok(())
    }
}
