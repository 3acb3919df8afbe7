ghost use Rattle.std.specs.Prelude.{◌≡◌, ℕ, ◌+◌, ◌<◌, ◌≤◌, true, length, if◌then◌else◌, Some, None, MatchOption, nat_le, nat_lt};
ghost use Rattle.lts.specs.Systems.{Lts};
ghost use Rattle.calls.specs.Contents.{empty_house, table_at, seat_at, with_seat};
ghost use Rattle.calls.specs.Promises.{StuckOnlyWhereContractsCan};
ghost use Rattle.house.specs.Stored.{seat_in};
ghost use Rattle.house.specs.Means.{means};

use crate::house::{House, MOVES, SEATS};
use arrayvec::ArrayVec;
use calls::Seat;
use lts::systems::System;
use source::table::{Move, Table};

impl House {
    /// A house without tables, with nothing on its seats.
    pub fn new() -> House
        ensures { means result ≡ empty_house }
    {
        House {
            moves: [Move::default(); MOVES],
            used: 0,
            entries: ArrayVec::new(),
            seats: [Seat::Empty; SEATS],
        }
    }

    /// Table `c`, if there is one.
    pub fn table(&self, c: u8) -> Option<Table<'_>>
        ensures { MatchOption result (length (means self.now).tables ≤ c) (λ t. (c < length (means self.now).tables) × (record { states = t.states; start = t.start; moves = t.moves.now } ≡ table_at (means self.now).tables c)) }
    {
        if self.lacks(c) {
            return None;
        }
        Some(self.table_at(c))
    }

    /// Table `c`, which is there.
    pub(crate) fn table_at(&self, c: u8) -> Table<'_>
        requires { c < length (means self.now).tables }
        ensures { record { states = result.states; start = result.start; moves = result.moves.now } ≡ table_at (means self.now).tables c }
    {
        let entry = self.entries[c as usize];
        let from = entry.first as usize;
        let to = from + entry.count as usize;
        Table {
            states: entry.states,
            start: entry.start,
            moves: &self.moves[from..to],
        }
    }

    /// What is on seat `s`, if there is such a seat.
    pub fn at(&self, s: u8) -> Option<Seat>
        ensures { result ≡ (if nat_lt 5 s then None else Some (seat_at (means self.now) s)) }
    {
        self.seats.get(s as usize).copied()
    }

    /// Whether there is no table `c`.
    pub(crate) fn lacks(&self, c: u8) -> bool
        ensures { result ≡ nat_le (length (means self.now).tables) c }
    {
        c as usize >= self.entries.len()
    }

    /// Puts `x` on seat `s`.
    pub(crate) fn put(&mut self, s: u8, x: Seat)
        requires { (s ≤ 5) × (seat_in (means self.old).tables x ≡ true) }
        ensures { means self.new ≡ with_seat (means self.old) s x }
    {
        self.seats[s as usize] = x;
    }

    /// Whatever calls made this house: beside any environment, on any set of names, it gets stuck as it is fitted only
    /// where its contracts can.
    pub fn stuck_only_where_contracts_can<E: System>(&self)
        ensures { StuckOnlyWhereContractsCan E.System.system (means self.now) }
    {}
}
