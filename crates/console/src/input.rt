//! Texts from outside.

ghost use Rattle.std.specs.Prelude.{◌≡◌, ◌+◌, IfOk, IfSome, take};

use std::alloc::Global;
use std::fs::File;
use std::io;
use std::io::Read;
use table::LONGEST;

// One byte past the longest text is enough to know that an input is too long.
const MOST: u64 = LONGEST as u64 + 1;

/// The bytes of an input, or as many of them as show that it is too long for a table.
pub fn read_text<R: Read + Drop>(alloc: Global, input: R) -> io::Result<Vec<u8>>
    ensures { IfOk result (λ text. IfSome (R.remaining input) (λ bytes. text.items ≡ take (LONGEST + 1) bytes)) }
{
    let mut text = Vec::new(alloc);
    input.take(MOST).read_to_end(&mut text)?;
    Ok(text)
}

/// The same of the file with this name.
pub fn read_file(rt: &HostRuntime, name: &str) -> io::Result<Vec<u8>> {
    read_text(rt.alloc(), File::open(rt, name)?)
}
