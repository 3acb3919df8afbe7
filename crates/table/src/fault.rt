ghost use Rattle.std.specs.Prelude.{◌≡◌};
ghost use Rattle.table.specs.Fault.{number, line_of, field_of};

/// Why a text is refused; lines and fields count from 1, and a line's first word is its field 1.
#[derive(Clone, Copy, PartialEq, Eq, Debug)]
pub enum Fault {
    /// The line feed at the line's end is missing; an empty text has none at line 1.
    Unended { line: usize },
    /// The line is of the wrong kind or has the wrong number of fields.
    Misshapen { line: usize },
    /// The field is no figure, or one that is out of range.
    Figure { line: usize, field: u8 },
    /// The way is none of the three.
    Way { line: usize },
    /// A silent move has a name.
    SilentName { line: usize },
    /// The text is longer than any table may be.
    TooLong,
    /// There are more moves than places for them.
    NoRoom,
}

impl Fault {
    /// The refusal's number.
    // The number is the format's.
    pub fn number(&self) -> u8
        ensures { result ≡ number self.now }
    {
        match *self {
            Fault::Unended { .. } | Fault::Misshapen { .. } => 1,
            Fault::Figure { .. } => 2,
            Fault::Way { .. } | Fault::SilentName { .. } => 3,
            Fault::TooLong | Fault::NoRoom => 4,
        }
    }

    /// The line of the fault, or 0 where it is in no line.
    // No `Option`: the format has 0 for no line.
    pub fn line(&self) -> usize
        ensures { result ≡ line_of self.now }
    {
        match *self {
            Fault::Unended { line } => line,
            Fault::Misshapen { line } => line,
            Fault::Figure { line, .. } => line,
            Fault::Way { line } => line,
            Fault::SilentName { line } => line,
            Fault::TooLong | Fault::NoRoom => 0,
        }
    }

    /// The field of the fault, or 0 where it is in no field.
    // No `Option`: the format has 0 for no field.
    pub fn field(&self) -> u8
        ensures { result ≡ field_of self.now }
    {
        match *self {
            Fault::Figure { field, .. } => field,
            Fault::Way { .. } => 3,
            Fault::SilentName { .. } => 4,
            Fault::Unended { .. } | Fault::Misshapen { .. } | Fault::TooLong | Fault::NoRoom => 0,
        }
    }
}
