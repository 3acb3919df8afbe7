ghost use Rattle.std.specs.Prelude.{◌≡◌, [], ◌∷◌, length, Ok, Err, nat_le};
ghost use Rattle.calls.specs.Contents.{seat_at};
ghost use Rattle.calls.specs.Seats.{contract};
ghost use Rattle.calls.specs.Calls.{◌refuses◌, unless_failed, fit_tests, unfit_tests, clear_tests, seat_result};
ghost use Rattle.house.specs.Means.{means};

use crate::house::House;
use calls::{Pile, Refusal, Seat};

impl House {
    /// That there is a table `c`.
    fn there_is(&self, c: u8) -> Result<(), Refusal>
        ensures { result ≡ unless_failed ((nat_le (length (means self.now).tables) c refuses Refusal.NoTable) ∷ []) Err (Ok tt) }
    {
        if self.lacks(c) {
            return Err(Refusal::NoTable);
        }
        Ok(())
    }

    /// Whether table `c` may become the contract on seat `s`.
    pub(crate) fn may_seat(&self, s: u8, c: u8) -> Result<(), Refusal>
        ensures { result ≡ seat_result (means self.now) s c }
    {
        let seat = self.at(s).ok_or(Refusal::NoSeat)?;
        self.there_is(c)?;
        match seat {
            Seat::Empty => Ok(()),
            Seat::Contract(_) | Seat::Fitted(_, _) => Err(Refusal::HasContract),
        }
    }

    /// The contract on seat `s`, which may be cleared.
    pub(crate) fn contract_on(&self, s: u8) -> Result<u8, Refusal>
        ensures { result ≡ unless_failed (clear_tests (means self.now) s) Err (Ok (contract (seat_at (means self.now) s))) }
    {
        let seat = self.at(s).ok_or(Refusal::NoSeat)?;
        seat.contract().ok_or(Refusal::NoContract)
    }

    /// The contract on seat `s`, from which what is fitted may be taken.
    pub(crate) fn may_unfit(&self, s: u8) -> Result<u8, Refusal>
        ensures { result ≡ unless_failed (unfit_tests (means self.now) s) Err (Ok (contract (seat_at (means self.now) s))) }
    {
        match self.at(s).ok_or(Refusal::NoSeat)? {
            Seat::Empty => Err(Refusal::NoContract),
            Seat::Contract(_) => Err(Refusal::NothingFitted),
            Seat::Fitted(c, _) => Ok(c),
        }
    }

    /// The contract that a pile of tables may be judged against on seat `s`.
    pub(crate) fn may_fit(&self, s: u8, pile: Pile) -> Result<u8, Refusal>
        ensures { result ≡ unless_failed (fit_tests (means self.now) s pile) Err (Ok (contract (seat_at (means self.now) s))) }
    {
        let c = self.contract_on(s)?;
        self.there_is(pile.table)?;
        if let Some(helper) = pile.helper {
            self.there_is(helper)?;
        }
        Ok(c)
    }
}
