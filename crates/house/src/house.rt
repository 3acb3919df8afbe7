ghost use Rattle.std.specs.Prelude.{◌≤◌, length};
ghost use Rattle.house.specs.Stored.{Wide, Within};

use arrayvec::ArrayVec;
use calls::Seat;
use source::table::Move;

mod entering;
mod fitting;
mod keeping;
mod seating;
mod testing;

/// No house has more tables.
const TABLES: usize = 12;

/// The moves of all tables have so many places.
const MOVES: usize = 1024;

/// No house has another number of seats.
pub const SEATS: usize = 6;

/// A table's states and start, and the places of its moves.
// By places: the moves lie in the house's own array, of which no slice can be kept.
#[derive(Clone, Copy, Default)]
struct Entry {
    states: u8,
    start: u8,
    first: u16,
    count: u16,
}

/// Tables, and seats with contracts and with what is fitted to them. Each pile that is fitted conforms to its contract.
#[derive(Drop)]
pub struct House {
    // An array with a count of what is in use: the reader writes into the free places, and an `ArrayVec` lends none.
    moves: [Move; MOVES],
    used: u16,
    entries: ArrayVec<Entry, TABLES>,
    seats: [Seat; SEATS],
    ghost wide: { Wide moves seats },
    ghost few: { (used ≤ 1024) × (length entries.items ≤ 12) },
    ghost within: { Within moves used entries.items seats },
}
