ghost use Rattle.std.specs.Prelude.{◌≡◌, ◌-◌, ◌≤◌, true, ◌++◌, length, take, drop, is_ok};
ghost use Rattle.table.specs.Table.{read_text, summary_of, moves_of, in_room, stored_in};
ghost use Rattle.calls.specs.Calls.{enter, enter_result, after};
ghost use Rattle.calls.specs.Histories.{GoesOn};
ghost use Rattle.house.specs.Means.{means};

use crate::house::{Entry, House};
use calls::Refusal;
use source::table::Move;
use table::{Checked, Fault, Summary};

/// Writes the moves of a text behind the first `used`, if there is room for them.
fn store_behind(moves: &mut [Move], used: usize, checked: &Checked<'_>) -> Result<Summary, Fault>
    requires { used ≤ length moves.old }
    ensures value { result ≡ in_room (length moves.old - used) (summary_of (read_text checked.now.text.now)) }
    ensures stored { moves.new ≡ take used moves.old ++ stored_in result (moves_of (read_text checked.now.text.now)) (drop used moves.old) }
{
    checked.store(&mut moves[used..])
}

impl House {
    /// Keeps a table that was read without fault, if there is a place for it and room for its moves.
    fn keep(&mut self, checked: &Checked<'_>) -> Result<u8, Refusal>
        requires { is_ok (read_text checked.now.text.now) ≡ true }
        ensures answer { result ≡ enter_result (means self.old) (read_text checked.now.text.now) }
        ensures house { means self.new ≡ after (means self.old) (enter checked.now.text.now) }
    {
        if self.entries.is_full() {
            return Err(Refusal::NoPlace);
        }
        let summary = store_behind(&mut self.moves, self.used as usize, checked)?;
        let number = self.entries.len() as u8;
        let count = summary.moves as u16;
        let entry = Entry {
            states: summary.states,
            start: summary.start,
            first: self.used,
            count,
        };
        self.entries.push(entry);
        self.used += count;
        Ok(number)
    }

    /// Reads a text, and answers the number of its table, counted from 0.
    pub fn enter(&mut self, text: &[u8]) -> Result<u8, Refusal>
        ensures answer { result ≡ enter_result (means self.old) (read_text text.now) }
        ensures house { means self.new ≡ after (means self.old) (enter text.now) }
        ensures history { GoesOn (means self.old) (enter text.now) (means self.new) }
    {
        let checked = table::check(text);
        checked.found()?;
        self.keep(&checked)
    }
}
