//! The fields of a line.

use crate::lines::Unanswered;
use std::str::FromStr;

/// What a field stands for.
pub fn read<T: FromStr>(field: &str) -> Result<T, Unanswered>
where
    T::Err: Drop,
{
    field.parse::<T>().map_err(|_| Unanswered::Unclear)
}

/// The text of a line of ASCII.
pub fn ascii(line: &[u8]) -> Result<&str, Unanswered> {
    match std::str::from_utf8(line) {
        Ok(text) if text.is_ascii() => Ok(text),
        _ => Err(Unanswered::Unclear),
    }
}
