//! The first candidate of a pair that fails.

ghost use Rattle.std.specs.Prelude.{◌≡◌, ◌<◌};
ghost use Rattle.lts.specs.Machines.{Machine};
ghost use Rattle.dense.specs.Copies.{meaning};
ghost use Rattle.clauses.specs.Candidates.{first_by, first_failing, by_rows};
ghost use Rattle.clauses.specs.Workspaces.{Prepared, stood_in, first_in};

use crate::counterexample::Counterexample;
use crate::pair::Pair;
use dense::machine::Dense;
use source::source::Source;

impl<P: Source> Pair<'_, P> {
    /// The first candidate that fails, of the first clause before the second.
    fn first_failing(&self) -> Option<Counterexample>
        ensures { result ≡ by_rows first_by (P.Source.means self.now.«module».machine.now) (meaning self.now.contract.machine.now) self.now.«module».row.now self.now.contract.row.now self.now.round self.now.ranks.now }
    {
        // Not `or_else`: its contract says nothing here of what a closure without arguments answers.
        match self.failing_move() {
            None => self.contract.failing_rest(&self.module),
            found => found,
        }
    }
}

/// The first candidate of the pair that fails against the pairs that stood before the round, by the closures and the ranks that
/// a workspace holds; `None` also where the workspace has no room for them, or there is no such pair.
// The parameters stay apart: they are what callers have, and a `Pair` is found from them.
pub fn first_failing_copied<P: Source>(
    module: &P,
    contract: &Dense,
    workspace: &[u8],
    round: u16,
    p: usize,
    q: usize,
) -> Option<Counterexample>
    ensures { result ≡ first_in (P.Source.means «module».now) (meaning contract.now) workspace.now round p q }
{
    Pair::find(module, contract, workspace, round, p, q)?.first_failing()
}

/// The first candidate of the pair that fails against the pairs that stood before the round, as `first_failing_copied` finds it by
/// a copy of the contract.
// The parameters stay apart, as above.
pub fn first_failing<P: Source, Q: Source>(
    module: &P,
    contract: &Q,
    workspace: &[u8],
    round: u16,
    p: usize,
    q: usize,
) -> Option<Counterexample>
    ensures value { result ≡ first_in (P.Source.means «module».now) (Q.Source.means contract.now) workspace.now round p q }
    ensures first { Prepared (P.Source.means «module».now) (Q.Source.means contract.now) workspace.now → p < (P.Source.means «module».now).size → q < (Q.Source.means contract.now).size → result ≡ first_failing (P.Source.means «module».now) (Q.Source.means contract.now) (stood_in (P.Source.means «module».now) (Q.Source.means contract.now) round workspace.now) p q }
{
    let mut copy = Dense::none();
    copy.copy(contract);
    first_failing_copied(module, &copy, workspace, round, p, q)
}
