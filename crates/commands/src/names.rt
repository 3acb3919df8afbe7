//! A set of names as one word: figures below 32 with commas between them, or `-` for none.

ghost use Rattle.std.specs.Prelude.{◌≡◌, ◌<◌, IfSome};
ghost use Rattle.std.specs.Option.{option_map};
ghost use Rattle.table.specs.Text.{figure_below};
ghost use Rattle.commands.specs.Names.{with_name_of, list_names, word_names};

use labels::{NAMES, NameSet};
use table::small_figure;

/// The set of names that a word says.
pub(crate) fn names_of(word: &[u8]) -> Option<NameSet>
    ensures { option_map (λ names. names.0) result ≡ word_names word.now }
{
    match word {
        b"-" => Some(NameSet::NONE),
        _ => list_names(word),
    }
}

/// The names of a list.
fn list_names(word: &[u8]) -> Option<NameSet>
    ensures { option_map (λ names. names.0) result ≡ list_names word.now }
{
    word.split(|b| *b == b',')
        .try_fold(NameSet::NONE, with_name_of)
}

/// The names with the one that the bytes write.
fn with_name_of(names: NameSet, bytes: &[u8]) -> Option<NameSet>
    ensures { option_map (λ more. more.0) result ≡ with_name_of names.0 bytes.now }
{
    let name = name_of(bytes)?;
    Some(names.with(name))
}

/// The name that the bytes write.
#[tactic(auto, using(table::proofs::Figures::figure_kept))]
fn name_of(bytes: &[u8]) -> Option<u8>
    ensures value { result ≡ figure_below 32 bytes.now }
    ensures below { IfSome result (λ n. n < 32) }
{
    small_figure(bytes).filter(|n| *n < NAMES)
}
