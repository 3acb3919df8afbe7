//! Tables that are kept in memory of their own.

ghost use Rattle.std.specs.Prelude.{◌≡◌};
ghost use Rattle.console.specs.declared.stored.Unkept.TheVariants.{OutOfMemory, Refused};
ghost use Rattle.console.specs.Texts.{Keeps};

use source::table::{Move, Table};
use std::alloc::{AllocError, Global};
use table::{Fault, Summary};

/// No table that is kept has more moves.
pub const MOST_KEPT: usize = 1024;

/// A table with its moves.
#[derive(Drop)]
pub struct Stored {
    pub summary: Summary,
    pub moves: Vec<Move>,
}

/// Why no table is kept.
#[derive(Drop)]
pub enum Unkept {
    /// The text is refused.
    Refused(Fault),
    /// There is no memory for the moves.
    OutOfMemory(AllocError),
}

impl From<Fault> for Unkept {
    ghost from_gives = { λ fault r. r ≡ Refused fault };

    fn from(fault: Fault) -> Unkept {
        Unkept::Refused(fault)
    }
}

impl From<AllocError> for Unkept {
    ghost from_gives = { λ error r. r ≡ OutOfMemory error };

    fn from(error: AllocError) -> Unkept {
        Unkept::OutOfMemory(error)
    }
}

impl Stored {
    /// The table that a text holds, or why there is none.
    pub fn read(alloc: Global, text: &[u8]) -> Result<Stored, Unkept>
        ensures { Keeps text.now result }
    {
        let checked = table::check(text);
        let most = checked.found()?.moves.min(MOST_KEPT);
        let mut moves = vec![in alloc; Move::default(); most]?;
        let summary = checked.store(moves.as_mut_slice())?;
        Ok(Stored { summary, moves })
    }

    /// The table, over the moves that are kept.
    pub fn table(&self) -> Table<'_>
        ensures states { result.states ≡ self.now.summary.states }
        ensures start { result.start ≡ self.now.summary.start }
        ensures moves { result.moves.now ≡ self.now.moves.items }
    {
        Table {
            states: self.summary.states,
            start: self.summary.start,
            moves: self.moves.as_slice(),
        }
    }
}
