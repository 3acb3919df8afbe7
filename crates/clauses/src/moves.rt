//! The first clause: what the module does on a label, the contract does too.

ghost use Rattle.std.specs.Prelude.{◌≡◌, ◌<◌, ◌&&◌, length};
ghost use Rattle.lts.specs.Machines.{Machine, some_below};
ghost use Rattle.dense.specs.Copies.{meaning};
ghost use Rattle.clauses.specs.Ranks.{row_reads, stood_at};
ghost use Rattle.clauses.specs.Candidates.{weak_by, first_move_on, first_move, as_move, by_rows};

use crate::counterexample::Counterexample;
use crate::pair::Pair;
use source::source::Source;

impl<P: Source> Pair<'_, P> {
    /// Whether the contract comes on the label to a state that stood with the state of the module.
    fn matched(&self, state: usize, label: u8) -> bool
        requires { state < length self.now.«module».row.now }
        ensures { result ≡ some_below (meaning self.now.contract.machine.now).size (λ v. weak_by (meaning self.now.contract.machine.now) (row_reads self.now.contract.row.now) 0 label v && stood_at self.now.round self.now.ranks.now (length self.now.contract.row.now) state v) }
    {
        let before = self.contract.machine.before(label, self.stood_row(state));
        (0..self.contract.row.len()).any(|t| before.has(t) && self.contract.reaches(t))
    }

    /// The lowest state that the module comes to on the label and the contract does not match.
    fn failing_on(&self, label: u8) -> Option<(u8, usize)>
        ensures { result ≡ by_rows first_move_on (P.Source.means self.now.«module».machine.now) (meaning self.now.contract.machine.now) self.now.«module».row.now self.now.contract.row.now self.now.round self.now.ranks.now label }
    {
        (0..self.module.row.len()).find_map(
            |state|
                requires { state < length self.now.«module».row.now }
            {
                let fails = self.module.weak_steps(label, state) && !self.matched(state, label);
                fails.then_some((label, state))
            },
        )
    }

    /// The first move of the module, by label and then by state, that the contract does not match.
    pub(crate) fn failing_move(&self) -> Option<Counterexample>
        ensures { result ≡ as_move (by_rows first_move (P.Source.means self.now.«module».machine.now) (meaning self.now.contract.machine.now) self.now.«module».row.now self.now.contract.row.now self.now.round self.now.ranks.now) }
    {
        self.module
            .move_labels()
            .iter()
            .find_map(|label| self.failing_on(label))
            .map(|(label, state)| Counterexample::Move { label, state })
    }
}
