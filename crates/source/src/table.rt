ghost use Rattle.std.specs.Prelude.{◌≡◌};
ghost use Rattle.source.specs.Tables.{table_machine, table_size};
ghost use Rattle.source.specs.Sounds.{table_sound};

use crate::extent::Extent;
use crate::source::Source;
use labels::{LabelSet, TAU};

/// A move from a state to a state on a label: a visible one, or 64 for the silent one.
#[derive(Clone, Copy, PartialEq, Eq, Default, Debug)]
pub struct Move {
    pub from: u8,
    pub label: u8,
    pub to: u8,
}

/// A machine as a list of its moves. A move with a state not below `states` or a label above 64 does not count,
/// and where `start` is not below `states` the table is too large.
#[derive(Clone, Copy)]
pub struct Table<'a> {
    pub states: u8,
    pub start: u8,
    pub moves: &'a [Move],
}

impl Table<'_> {
    fn extent(&self) -> Extent
        ensures { result ≡ record { states = self.now.states; start = self.now.start } }
    {
        Extent {
            states: self.states,
            start: self.start,
        }
    }

    fn count(&self) -> usize
        ensures { result ≡ table_size self.now.states self.now.start }
    {
        self.extent().count()
    }
}

// A rule of the project: has_move, initials and is_stable are loops over the elements of the move slice, so that each costs one pass.
impl Source for Table<'_> {
    ghost means = { λ t. table_machine t.states t.start t.moves.now };

    ghost sound = { λ t. table_sound t.states t.start t.moves.now };

    fn size(&self) -> u16 {
        self.extent().size()
    }

    fn start(&self) -> usize {
        self.extent().start()
    }

    fn has_move(&self, p: usize, label: u8, q: usize) -> bool {
        let n = self.count();
        if p >= n || q >= n || label > TAU {
            return false;
        }
        for v in self.moves {
            if v.from as usize == p && v.label == label && v.to as usize == q {
                return true;
            }
        }
        false
    }

    fn initials(&self, p: usize) -> LabelSet {
        let n = self.count();
        let mut seen = LabelSet::empty();
        if p >= n {
            return seen;
        }
        for v in self.moves {
            if v.from as usize == p && (v.to as usize) < n {
                seen = seen.with(v.label);
            }
        }
        seen
    }

    fn is_stable(&self, p: usize) -> bool {
        let n = self.count();
        for v in self.moves {
            if v.from as usize == p && (v.to as usize) < n && v.label == TAU {
                return false;
            }
        }
        p < n
    }
}
