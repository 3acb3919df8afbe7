//! Texts on one line: `|` stands for a line end, `%hh` for the byte of two hex digits.

ghost use Rattle.std.specs.Prelude.{◌<◌, ◌≤◌, length, IfSome};

use std::alloc::{AllocError, Global};

/// The bytes of a text on one line.
pub fn decode(alloc: Global, line: &[u8]) -> Result<Vec<u8>, AllocError> {
    let mut text = Vec::with_capacity(alloc, line.len())?;
    let mut rest = line;
    while let Some((byte, after)) = first(rest) {
        text.push(byte)?;
        rest = after;
    }
    Ok(text)
}

// The byte that a line begins with, and what follows it; a `%` without its digits is itself.
fn first(line: &[u8]) -> Option<(u8, &[u8])>
    ensures { IfSome result (λ p. length p.1.now < length line.now) }
{
    match line {
        [] => None,
        [b'%', high, low, rest @ ..] => match (hex(*high), hex(*low)) {
            (Some(high), Some(low)) => Some((high * 16 + low, rest)),
            _ => Some((b'%', &line[1..])),
        },
        [b'|', rest @ ..] => Some((b'\n', rest)),
        [byte, rest @ ..] => Some((*byte, rest)),
    }
}

// `to_digit` would take capitals too.
fn hex(digit: u8) -> Option<u8>
    ensures { IfSome result (λ n. n < 16) }
{
    match digit {
        b'0'..=b'9' => Some(digit - b'0'),
        b'a'..=b'f' => Some(digit - b'a' + 10),
        _ => None,
    }
}
