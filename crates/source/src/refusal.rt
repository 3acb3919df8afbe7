ghost use Rattle.std.specs.Prelude.{◌≡◌};
ghost use Rattle.source.specs.Refusals.{number};

/// Why a source is refused: it is neither judged nor looked through.
#[derive(Clone, Copy, PartialEq, Eq, Debug)]
pub enum Refusal {
    /// A source has more than 255 states.
    TooLarge,
    /// The workspace or the sheet is too short.
    TooShort,
}

impl Refusal {
    /// The number of the refusal.
    // The number is the format's.
    pub fn number(self) -> u8
        ensures { result ≡ number self }
    {
        match self {
            Refusal::TooLarge => 10,
            Refusal::TooShort => 11,
        }
    }
}
