// What a line of the input asks for.
ghost use Rattle.std.specs.Prelude.{◌⊎◌, [], ◌∷◌, MatchOption};
ghost use Rattle.std.specs.Str.Iter.{split_whitespace_rest};
ghost use Rattle.counter.specs.Lines.{Says, Words, Two};

use std::str::SplitWhitespace;

// One call of the five of `commands`: counter stands on no house.
#[derive(Clone, Copy, PartialEq, Eq, Debug)]
pub enum Command<'a> {
    // Read the table in this file, and keep it.
    Enter(&'a str),
}

// The words of a line make no call.
#[derive(Clone, Copy, PartialEq, Eq, Debug)]
pub struct Unclear;

// Words are parted by white space; a call is its name and what it is given, and a line of no words asks for nothing.
pub fn parse(line: &str) -> Result<Option<Command<'_>>, Unclear>
    ensures { Says line.now result }
{
    let mut words = line.split_whitespace();
    match words.next() {
        None => Ok(None),
        Some("enter") => {
            let file = only(words).ok_or(Unclear)?;
            Ok(Some(Command::Enter(file)))
        }
        Some(_) => Err(Unclear),
    }
}

// The one word that is left, if there is just one.
fn only<'a>(mut words: SplitWhitespace<'a>) -> Option<&'a str>
    ensures { MatchOption result (Words (split_whitespace_rest words.entry) [] ⊎ Two (split_whitespace_rest words.entry)) (λ w. Words (split_whitespace_rest words.entry) (w.now ∷ [])) }
{
    let word = words.next()?;
    match words.next() {
        None => Some(word),
        Some(_) => None,
    }
}
