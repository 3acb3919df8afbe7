ghost use Rattle.std.specs.Prelude.{◌≡◌, if◌then◌else◌, Some, None};
ghost use Rattle.calls.specs.Seats.{has_contract, contract};

use labels::NameSet;

/// What stands in for a contract: a table, beside a helper on its right if there is one, without the moves on some names.
#[derive(Clone, Copy, PartialEq, Eq, Debug)]
pub struct Pile {
    pub table: u8,
    pub helper: Option<u8>,
    pub hidden: NameSet,
}

/// What is on a seat: nothing, a contract by its table, or a contract and the pile that is fitted to it.
#[derive(Clone, Copy, PartialEq, Eq, Debug)]
pub enum Seat {
    Empty,
    Contract(u8),
    Fitted(u8, Pile),
}

impl Seat {
    /// The table that is the contract on the seat.
    pub fn contract(self) -> Option<u8>
        ensures { result ≡ (if has_contract self then Some (contract self) else None) }
    {
        match self {
            Seat::Empty => None,
            Seat::Contract(c) | Seat::Fitted(c, _) => Some(c),
        }
    }
}
