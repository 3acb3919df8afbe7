ghost use Rattle.std.specs.Prelude.{◌≡◌};
ghost use Rattle.calls.specs.Refusals.{number};
ghost use Rattle.calls.specs.declared.refusal.Refusal.TheVariants as refusal;

use judge::verdict::Counterexample;
use source::refusal::Refusal as Unjudged;
use table::Fault;

/// Why a call is refused.
#[derive(Clone, Copy, PartialEq, Eq, Debug)]
pub enum Refusal {
    /// The reader's fault: the text is no table, or has more moves than there is room for.
    Text(Fault),
    /// There are twelve tables already.
    NoPlace,
    /// The seats are 0 to 5.
    NoSeat,
    /// The seat has no contract.
    NoContract,
    /// The seat has a contract already.
    HasContract,
    /// No table has the number.
    NoTable,
    /// Nothing is fitted on the seat.
    NothingFitted,
    /// The judge's refusal: a machine is too large, or the workspace too short.
    Unjudged(Unjudged),
    /// The verdict is no: the round that struck the starts, and the first candidate that failed then.
    DoesNotConform {
        round: u16,
        counterexample: Counterexample,
    },
}

impl Refusal {
    /// The refusal's number, by which lines and statements name it.
    // The number is the format's.
    pub fn number(&self) -> u8
        ensures { result ≡ number self.now }
    {
        match *self {
            Refusal::Text(fault) => fault.number(),
            Refusal::NoPlace => 4,
            Refusal::NoSeat => 5,
            Refusal::NoContract => 6,
            Refusal::HasContract => 7,
            Refusal::NoTable => 8,
            Refusal::NothingFitted => 9,
            Refusal::Unjudged(refusal) => refusal.number(),
            Refusal::DoesNotConform { .. } => 12,
        }
    }
}

impl From<Fault> for Refusal {
    ghost from_gives = { λ fault r. r ≡ refusal.Text fault };

    fn from(fault: Fault) -> Self {
        Self::Text(fault)
    }
}

impl From<Unjudged> for Refusal {
    ghost from_gives = { λ unjudged r. r ≡ refusal.Unjudged unjudged };

    fn from(unjudged: Unjudged) -> Self {
        Self::Unjudged(unjudged)
    }
}
