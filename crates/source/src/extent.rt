ghost use Rattle.std.specs.Prelude.{◌≡◌, cond, ◌==◌};
ghost use Rattle.source.specs.Tables.{table_size};

use crate::source::told_size;

/// How many states a machine has and where it starts. Where `start` is not below `states` it is too large.
#[derive(Clone, Copy, PartialEq, Eq, Default, Debug)]
pub struct Extent {
    pub states: u8,
    pub start: u8,
}

impl Extent {
    /// The number of states. It is 0 for too-large, since the machine without states is the one that is too large.
    pub fn count(self) -> usize
        ensures { result ≡ table_size self.states self.start }
    {
        if self.start < self.states {
            usize::from(self.states)
        } else {
            0
        }
    }

    /// What a source tells of the number of states.
    pub fn size(self) -> u16
        ensures { result ≡ cond (table_size self.states self.start == 0) 256 (table_size self.states self.start) }
    {
        told_size(self.count() as u16)
    }

    /// The start, or 0 for too-large.
    // What a source tells of its start is a number: a rule of the project.
    pub fn start(self) -> usize
        ensures { result ≡ cond (table_size self.states self.start == 0) 0 self.start }
    {
        if self.count() == 0 {
            0
        } else {
            usize::from(self.start)
        }
    }
}
