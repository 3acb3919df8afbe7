ghost use Rattle.std.specs.Prelude.{◌≡◌};
ghost use Rattle.installer.specs.Outcomes.{faulty, unjudged};

use source::refusal::Refusal;
use table::Fault;

/// Why there is no verdict: the refusal's number, the text it is about (1 or 2), its line and its field.
// No `Option`s: the line has these four numbers, 0 where nothing applies.
#[derive(Clone, Copy, PartialEq, Eq, Debug)]
pub(crate) struct Refused {
    pub(crate) number: u8,
    pub(crate) text: u8,
    pub(crate) line: usize,
    pub(crate) field: u8,
}

impl Refused {
    /// The fault of the first text or the second.
    pub(crate) fn faulty(text: u8, fault: Fault) -> Refused
        ensures { result ≡ faulty text fault }
    {
        Refused {
            number: fault.number(),
            text,
            line: fault.line(),
            field: fault.field(),
        }
    }
}

impl From<Refusal> for Refused {
    ghost from_gives = { λ refusal r. r ≡ unjudged refusal };

    fn from(refusal: Refusal) -> Refused {
        Refused {
            number: refusal.number(),
            text: 0,
            line: 0,
            field: 0,
        }
    }
}
