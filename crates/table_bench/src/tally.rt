use listed::sum::Sum;
use source::table::Move;
use std::fmt;

// How often the text was read, and a sum that takes in one move of each reading.
#[derive(Clone, Copy)]
pub struct Tally {
    turns: u64,
    bytes: usize,
    read: u64,
    sum: Sum,
}

impl Tally {
    pub fn of(text: &[u8], turns: u64, moves: &mut [Move]) -> Tally {
        let mut tally = Tally {
            turns,
            bytes: text.len(),
            read: 0,
            sum: Sum::default(),
        };
        for turn in 0..turns {
            if let Ok(summary) = table::check(text).store(moves) {
                tally.take(moves, turn, summary.moves as u64);
            }
        }
        tally
    }

    // Takes in the move at the turn's place, going round.
    fn take(&mut self, moves: &[Move], turn: u64, many: u64) {
        self.read = self.read.wrapping_add(1);
        if many == 0 {
            return;
        }
        if let Some(step) = moves.get((turn % many) as usize) {
            let word = step.from as u64 * 65536 + step.label as u64 * 256 + step.to as u64;
            self.sum.take(word);
        }
    }
}

impl fmt::Display for Tally {
    fn fmt<W: fmt::Write>(&self, f: &mut fmt::Formatter<W>) -> fmt::Result {
        let Tally {
            turns,
            bytes,
            read,
            sum,
        } = self;
        write!(f, "texts {turns}, bytes {bytes}, read {read}, sum {sum}")
    }
}
