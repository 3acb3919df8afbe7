pub use clauses::counterexample::Counterexample;

/// Whether the module conforms.
// Not an Option or a Result: a yes and a no are both answers, and a no is no error.
#[derive(Clone, Copy, PartialEq, Eq, Debug)]
pub enum Answer {
    Yes,
    /// The round that struck the pair of the starts, and the first of its candidates that failed then.
    No {
        round: u16,
        counterexample: Counterexample,
    },
}

#[derive(Clone, Copy, PartialEq, Eq, Debug)]
pub struct Verdict {
    /// How many states the module has.
    pub states: usize,
    /// How many the contract has.
    pub others: usize,
    /// How many rounds struck a pair.
    pub highest: u16,
    /// How many pairs of states stand.
    pub standing: u16,
    pub answer: Answer,
}
