use crate::fault::Fault;
use std::fmt;

impl fmt::Display for Fault {
    fn fmt<W: fmt::Write>(&self, f: &mut fmt::Formatter<W>) -> fmt::Result {
        let number = self.number();
        let line = self.line();
        let field = self.field();
        let reason = reason(self);
        if line == 0 {
            write!(f, "refusal {number}: {reason}")
        } else if field == 0 {
            write!(f, "refusal {number} at line {line}: {reason}")
        } else {
            write!(
                f,
                "refusal {number} at line {line}, field {field}: {reason}"
            )
        }
    }
}

/// What the text has to be at the place of the fault.
fn reason(fault: &Fault) -> &'static str {
    match *fault {
        Fault::Unended { .. } => "the line must end with a line feed (byte 10)",
        Fault::Misshapen { line: 1 } => "the first line must be table,STATES,START",
        Fault::Misshapen { .. } => "the line must be move,FROM,WAY,NAME,TO",
        Fault::Figure { line: 1, field: 2 } =>
            "STATES must be a figure from 1 to 255, without sign or leading zero",
        Fault::Figure { line: 1, .. } =>
            "START must be a figure below STATES, without sign or leading zero",
        Fault::Figure { field: 2, .. } =>
            "FROM must be a figure below STATES, without sign or leading zero",
        Fault::Figure { field: 4, .. } =>
            "NAME must be a figure from 0 to 31, without sign or leading zero",
        Fault::Figure { .. } => "TO must be a figure below STATES, without sign or leading zero",
        Fault::Way { .. } => "WAY must be ?, ! or -",
        Fault::SilentName { .. } => "a silent move has no NAME",
        Fault::TooLong => "a table has at most 40960 bytes",
        Fault::NoRoom => "the table has more moves than there are places for them",
    }
}
