use labels::NameSet;
use listed::sum::Sum;
use search::search;
use source::table::{Move, Table};
use std::fmt;

// How many searches found a state, and a sum over those states.
#[derive(Clone, Copy)]
pub struct Searches {
    turns: u32,
    found: u32,
    sum: Sum,
}

impl Searches {
    // Searches the table of a text on one set of names after another.
    pub fn of(text: &[u8], turns: u32, moves: &mut [Move]) -> Searches {
        let mut searches = Searches {
            turns,
            found: 0,
            sum: Sum::default(),
        };
        let Ok(summary) = table::check(text).store(moves) else {
            return searches;
        };
        let Some(moves) = moves.get(0..summary.moves) else {
            return searches;
        };
        let table = Table {
            states: summary.states,
            start: summary.start,
            moves,
        };
        for turn in 0..turns {
            // An odd factor, so that no two turns have the same names.
            searches.take(&table, NameSet(turn.wrapping_mul(0x9e37_79b1)));
        }
        searches
    }

    fn take(&mut self, table: &Table<'_>, names: NameSet) {
        let mut sheet = [0; 255];
        if let Ok(Some(stuck)) = search(table, names, &mut sheet) {
            let word = stuck.state as u64 * 256 + stuck.label as u64;
            self.found = self.found.wrapping_add(1);
            self.sum.take(word);
        }
    }
}

impl fmt::Display for Searches {
    fn fmt<W: fmt::Write>(&self, f: &mut fmt::Formatter<W>) -> fmt::Result {
        let Searches { turns, found, sum } = self;
        write!(f, "searches {turns}, found {found}, sum {sum}")
    }
}
