//! What the programs that run test cases share: a line and its answer, texts on one line and their tables, and how
//! bytes and counterexamples are shown.
#![tactic(auto)]

ghost use Rattle.std.specs.Prelude.{◌≡◌, IfOk, replicate};

pub mod bench;
pub mod fields;
pub mod layered;
pub mod lines;
pub mod one_line;
pub mod shown;
pub mod sum;

use crate::lines::Unanswered;
use console::stored::{Stored, Unkept};
use std::alloc::{AllocError, Global};

/// The table of a text in which `|` stands for the line end.
pub fn table_of(alloc: Global, text: &str) -> Result<Stored, Unanswered> {
    let text = with_line_ends(alloc, text)?;
    match Stored::read(alloc, text.as_slice()) {
        Ok(table) => Ok(table),
        Err(Unkept::Refused(_)) => Err(Unanswered::Unread),
        Err(Unkept::OutOfMemory(error)) => Err(error.into()),
    }
}

// What a buffer holds before it is lent.
const UNTOUCHED: u8 = 7;

/// A buffer to be lent, in which untouched bytes show.
pub fn untouched(alloc: Global, length: usize) -> Result<Vec<u8>, AllocError>
    ensures { IfOk result (λ bytes. bytes.items ≡ replicate length 7) }
{
    Ok(vec![in alloc; UNTOUCHED; length]?)
}

fn with_line_ends(alloc: Global, text: &str) -> Result<Vec<u8>, AllocError> {
    text.bytes()
        .map(|byte| if byte == b'|' { b'\n' } else { byte })
        .collect(alloc)
}
