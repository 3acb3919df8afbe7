ghost use Rattle.std.specs.Prelude.{◌≡◌, ◌==◌, position};
ghost use Rattle.table.specs.Lines.{next_line, Onward};

use super::Reader;
use crate::fault::Fault;
use crate::line::{Line, read_line};

impl Reader<'_> {
    /// The next line or the fault in it, and nothing where the text ends; at a fault the reader stays.
    // No `Iterator`: at a fault the reader stays and answers it again, so no loop over it would be known to end.
    pub fn next(&mut self) -> Option<Result<Line, Fault>>
        ensures value { result ≡ next_line self.old }
        ensures onward { Onward result self.old self.new }
    {
        let rest = &self.text[self.at..];
        if rest.is_empty() {
            return None;
        }
        let Some(end) = end_of_line(rest) else {
            return Some(Err(Fault::Unended { line: self.line }));
        };
        let read = read_line(&rest[..end], self.stage, self.line);
        if let Ok(line) = read {
            self.at += end + 1;
            self.line += 1;
            self.stage = self.stage.after(line);
        }
        Some(read)
    }
}

/// Where the line feed stands that ends the first line.
fn end_of_line(rest: &[u8]) -> Option<usize>
    ensures { result ≡ position (λ b. b == 10) rest.now }
{
    rest.iter().position(|b| *b == b'\n')
}
