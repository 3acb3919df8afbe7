ghost use Rattle.std.specs.Prelude.{◌≡◌};
ghost use Rattle.calls.specs.Calls.{seat, unfit, clear, seat_result, unfit_result, clear_result, after};
ghost use Rattle.calls.specs.Histories.{GoesOn};
ghost use Rattle.house.specs.Means.{means};

use crate::house::House;
use calls::{Refusal, Seat};

impl House {
    /// Puts table `c` as the contract on seat `s`, which has none.
    pub fn seat(&mut self, s: u8, c: u8) -> Result<(), Refusal>
        ensures answer { result ≡ seat_result (means self.old) s c }
        ensures house { means self.new ≡ after (means self.old) (seat s c) }
        ensures history { GoesOn (means self.old) (seat s c) (means self.new) }
    {
        self.may_seat(s, c)?;
        self.put(s, Seat::Contract(c));
        Ok(())
    }

    /// Takes the fitted pile off seat `s`; the contract stays.
    pub fn unfit(&mut self, s: u8) -> Result<(), Refusal>
        ensures answer { result ≡ unfit_result (means self.old) s }
        ensures house { means self.new ≡ after (means self.old) (unfit s) }
        ensures history { GoesOn (means self.old) (unfit s) (means self.new) }
    {
        let c = self.may_unfit(s)?;
        self.put(s, Seat::Contract(c));
        Ok(())
    }

    /// Empties seat `s`: the contract goes, and what is fitted with it.
    pub fn clear(&mut self, s: u8) -> Result<(), Refusal>
        ensures answer { result ≡ clear_result (means self.old) s }
        ensures house { means self.new ≡ after (means self.old) (clear s) }
        ensures history { GoesOn (means self.old) (clear s) (means self.new) }
    {
        self.contract_on(s)?;
        self.put(s, Seat::Empty);
        Ok(())
    }
}
