ghost use Rattle.std.specs.Prelude.{◌≡◌, ◌∷◌};
ghost use Rattle.table.specs.Write.{parted};
ghost use Rattle.installer.specs.Texts.{text_of, cut, grown};
ghost use Rattle.installer.specs.Lines.{line_of, label_fields, failing_fields, answer_fields, refusal_fields};

use crate::outcome::Refused;
use crate::text::Text;
use judge::verdict::{Answer, Counterexample, Verdict};
use labels::NAMES;

impl Text {
    /// With way and name, or neither.
    fn label(self, label: Option<u8>) -> Text
        ensures { text_of result ≡ grown self (44 ∷ parted 44 (label_fields label)) }
    {
        match label {
            Some(label) if label < NAMES => self.with(b',').with(b'?').field(label as usize),
            Some(label) => self.with(b',').with(b'!').field((label - NAMES) as usize),
            None => self.with(b',').with(b','),
        }
    }

    /// With the clause, the label and the state of what fails.
    fn failing(self, counterexample: Counterexample) -> Text
        ensures { text_of result ≡ grown self (44 ∷ parted 44 (failing_fields counterexample)) }
    {
        match counterexample {
            Counterexample::Move { label, state } => {
                self.with(b',').with(b'1').label(Some(label)).field(state)
            }
            Counterexample::Rest { label, state } => {
                self.with(b',').with(b'2').label(label).field(state)
            }
        }
    }
}

/// The fields of a verdict.
fn verdict_fields(verdict: Verdict) -> Text
    ensures { text_of result ≡ cut (parted 44 (answer_fields verdict verdict.answer)) }
{
    match verdict.answer {
        Answer::Yes => Text::of(b"yes")
            .field(verdict.states)
            .field(verdict.others)
            .field(verdict.highest as usize)
            .field(verdict.standing as usize),
        Answer::No {
            round,
            counterexample,
        } => Text::of(b"no")
            .field(verdict.states)
            .field(verdict.others)
            .field(round as usize)
            .failing(counterexample),
    }
}

/// The fields of a refusal.
fn refusal_fields(refused: Refused) -> Text
    ensures { text_of result ≡ cut (parted 44 (refusal_fields refused)) }
{
    Text::of(b"refused")
        .field(refused.number as usize)
        .field(refused.text as usize)
        .field(refused.line)
        .field(refused.field as usize)
}

/// The line of an outcome.
pub(crate) fn line_of(outcome: Result<Verdict, Refused>) -> Text
    ensures { text_of result ≡ line_of outcome }
{
    let fields = match outcome {
        Ok(verdict) => verdict_fields(verdict),
        Err(refused) => refusal_fields(refused),
    };
    fields.with(b'\n')
}
