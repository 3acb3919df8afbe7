ghost use Rattle.std.specs.Prelude.{◌≡◌, ◌+◌, ◌≤◌, length};
ghost use Rattle.table.specs.declared.line.Stage.TheVariants.{BeforeHead};

use crate::line::Stage;

mod lines;

/// Hands out the lines of a text one after another, up to the first fault.
// The whole text with a place in it, and not what is left of it: the place bounds the number of lines before it.
#[derive(Drop)]
pub struct Reader<'a> {
    text: &'a [u8],
    at: usize,
    pub(crate) line: usize,
    pub(crate) stage: Stage,
    ghost within: { at ≤ length text.now },
    ghost counted: { line ≤ at + 1 },
}

impl<'a> Reader<'a> {
    /// A reader before the first line.
    pub fn new(text: &'a [u8]) -> Reader<'a>
        ensures text { result.text.now ≡ text.now }
        ensures at { result.at ≡ 0 }
        ensures line { result.line ≡ 1 }
        ensures stage { result.stage ≡ BeforeHead }
    {
        Reader {
            text,
            at: 0,
            line: 1,
            stage: Stage::BeforeHead,
        }
    }
}
