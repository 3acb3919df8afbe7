// What is read of a text, as one line.
use console::stored::Stored;
use listed::lines::Unanswered;
use listed::one_line::decode;
use std::alloc::Global;
use std::fmt;

#[derive(Drop)]
pub struct Read(Stored);

impl Read {
    pub fn of(alloc: Global, line: &[u8]) -> Result<Read, Unanswered> {
        let text = decode(alloc, line)?;
        Ok(Read(Stored::read(alloc, text.as_slice())?))
    }
}

impl fmt::Display for Read {
    fn fmt<W: fmt::Write>(&self, f: &mut fmt::Formatter<W>) -> fmt::Result {
        let summary = self.0.summary;
        let (states, start, moves) = (summary.states, summary.start, summary.moves);
        write!(f, "read,{states},{start},{moves}")?;
        for step in self.0.moves.iter() {
            write!(f, ";{} {} {}", step.from, step.label, step.to)?;
        }
        Ok(())
    }
}
