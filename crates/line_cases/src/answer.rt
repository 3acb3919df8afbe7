// What a call leaves, as one line.
use crate::case::{Call, Case};
use installer::{verdict_line, verdict_line_of_input};
use listed::lines::Unanswered;
use listed::shown::Bytes;
use listed::untouched;
use std::alloc::Global;
use std::fmt;

#[derive(Drop)]
pub struct Answer {
    length: usize,
    line: Vec<u8>,
    workspace: Vec<u8>,
}

impl Answer {
    pub fn of(alloc: Global, line: &[u8]) -> Result<Answer, Unanswered> {
        let case = Case::read(alloc, line)?;
        let mut workspace = untouched(alloc, case.room as usize)?;
        let mut line = untouched(alloc, case.buffer as usize)?;
        let length = make(&case.call, workspace.as_mut_slice(), line.as_mut_slice());
        Ok(Answer {
            length,
            line,
            workspace,
        })
    }
}

fn make(call: &Call, workspace: &mut [u8], line: &mut [u8]) -> usize {
    match call {
        Call::Texts(bytes, first) => {
            let (module, contract) = bytes.as_slice().split_at((*first).min(bytes.len()));
            verdict_line(module, contract, workspace, line)
        }
        Call::Input(bytes) => verdict_line_of_input(bytes.as_slice(), workspace, line),
    }
}

impl fmt::Display for Answer {
    fn fmt<W: fmt::Write>(&self, f: &mut fmt::Formatter<W>) -> fmt::Result {
        write!(f, "{};", self.length)?;
        show_line(self.line.as_slice(), f)?;
        write!(f, ";{}", Bytes(self.workspace.as_slice()))
    }
}

// `|` for a line end, `%hh` for what is not printable.
fn show_line<W: fmt::Write>(bytes: &[u8], f: &mut fmt::Formatter<W>) -> fmt::Result {
    for byte in bytes {
        match *byte {
            b'\n' => write!(f, "|")?,
            b'|' | b'%' => write!(f, "%{byte:02x}")?,
            b' '..=b'~' => write!(f, "{}", *byte as char)?,
            _ => write!(f, "%{byte:02x}")?,
        }
    }
    Ok(())
}
