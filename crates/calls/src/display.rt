//! Refusals in words.

use crate::refusal::Refusal;
use judge::verdict::Counterexample;
use labels::VisibleLabel;
use source::refusal::Refusal as Unjudged;
use std::fmt;

impl fmt::Display for Refusal {
    fn fmt<W: fmt::Write>(&self, f: &mut fmt::Formatter<W>) -> fmt::Result {
        let number = self.number();
        let reason = match *self {
            Refusal::Text(fault) => return write!(f, "{fault}"),
            Refusal::NoPlace => "the house has twelve tables, and no place for another",
            Refusal::NoSeat => "the seats are 0 to 5",
            Refusal::NoContract => "the seat has no contract: put one there first",
            Refusal::HasContract => "the seat has a contract: clear the seat first",
            Refusal::NoTable => "there is no table of this number: enter it first",
            Refusal::NothingFitted => "nothing is fitted on the seat",
            Refusal::Unjudged(Unjudged::TooLarge) => {
                "module and helper together have more than 255 states"
            }
            Refusal::Unjudged(Unjudged::TooShort) => {
                "the workspace is too short for the states of both"
            }
            Refusal::DoesNotConform {
                round,
                counterexample,
            } => {
                let failing = Failing(counterexample);
                return write!(
                    f,
                    "refusal {number}: the verdict is no, since {failing} (round {round})"
                );
            }
        };
        write!(f, "refusal {number}: {reason}")
    }
}

/// What fails, in words.
#[derive(Drop)]
struct Failing(Counterexample);

impl fmt::Display for Failing {
    fn fmt<W: fmt::Write>(&self, f: &mut fmt::Formatter<W>) -> fmt::Result {
        match self.0 {
            Counterexample::Move { label, state } => {
                let label = VisibleLabel(label);
                write!(
                    f,
                    "the module can do {label} to its state {state}, and the contract cannot follow (clause 1)"
                )
            }
            Counterexample::Rest {
                label: Some(label),
                state,
            } => {
                let label = VisibleLabel(label);
                write!(
                    f,
                    "the module can come to rest in its state {state}, offering {label}, and the contract nowhere with that and no further offers (clause 2)"
                )
            }
            Counterexample::Rest { label: None, state } => write!(
                f,
                "the module can come to rest in its state {state}, and the contract nowhere without further offers (clause 2)"
            ),
        }
    }
}
