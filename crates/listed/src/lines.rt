//! One answer to each line of the input.

use console::stored::Unkept;
use layers::relabel::BadMap;
use std::alloc::AllocError;
use std::io::{BufRead, BufReader, BufWriter, Write};
use std::{fmt, io};
use table::Fault;

/// Why a line has no answer.
#[derive(Drop)]
pub enum Unanswered {
    /// The line is no case.
    Unclear,
    /// A text of the case does not read.
    Unread,
    /// The text that the case is about is refused.
    Text(Fault),
    /// The map of the case is no renaming.
    Map(BadMap),
    /// There is no memory for the answer.
    OutOfMemory(AllocError),
}

impl From<Unkept> for Unanswered {
    fn from(reason: Unkept) -> Unanswered {
        match reason {
            Unkept::Refused(fault) => Unanswered::Text(fault),
            Unkept::OutOfMemory(error) => Unanswered::OutOfMemory(error),
        }
    }
}

impl From<BadMap> for Unanswered {
    fn from(bad: BadMap) -> Unanswered {
        Unanswered::Map(bad)
    }
}

impl From<AllocError> for Unanswered {
    fn from(error: AllocError) -> Unanswered {
        Unanswered::OutOfMemory(error)
    }
}

impl fmt::Display for Unanswered {
    fn fmt<W: fmt::Write>(&self, f: &mut fmt::Formatter<W>) -> fmt::Result {
        match self {
            Unanswered::Unclear => write!(f, "unclear"),
            Unanswered::Unread => write!(f, "unread"),
            Unanswered::Text(fault) => {
                let (number, line, field) = (fault.number(), fault.line(), fault.field());
                write!(f, "refused,{number},{line},{field}")
            }
            Unanswered::Map(bad) => write!(f, "refused,{}", bad.number()),
            Unanswered::OutOfMemory(_) => write!(f, "out of memory"),
        }
    }
}

/// Answers each line of the input on a line of the output; where there is no answer, the line says why. It ends early
/// where memory runs out.
pub fn answer_lines<A, F>(rt: &HostRuntime, mut answer: F) -> io::Result<()>
where
    A: fmt::Display + Drop,
    F: FnMut(&[u8]) -> Result<A, Unanswered>,
    requires { F.IsAlwaysCallable answer }
{
    let alloc = rt.alloc();
    let mut out = BufWriter::new(alloc, rt.stdout())?;
    for line in BufReader::new(alloc, rt.stdin())?.split(alloc, b'\n') {
        match answer(line?.as_slice()) {
            Ok(told) => writeln!(out, "{told}")?,
            Err(Unanswered::OutOfMemory(error)) => return Err(error.into()),
            Err(reason) => writeln!(out, "{reason}")?,
        }
    }
    out.flush()
}
