//! A pair of states, one of each machine, beside the ranks by which other pairs stood.

ghost use Rattle.std.specs.Prelude.{◌≡◌, ℕ, ◌*◌, ◌<◌, ◌≤◌, ◌&&◌, length, MatchOption, None, nat_lt};
ghost use Rattle.lts.specs.Machines.{Machine};
ghost use Rattle.dense.specs.Copies.{meaning};
ghost use Rattle.dense.specs.Rows.{in_row};
ghost use Rattle.clauses.specs.Ranks.{stood_at};
ghost use Rattle.clauses.specs.Candidates.{first_by, by_rows};
ghost use Rattle.clauses.specs.Workspaces.{first_in};

use crate::place::Place;
use crate::ranks::stood_before;
use dense::machine::Dense;
use dense::row::Row;
use source::source::Source;

/// A pair, and the ranks that tell which pairs stood before the round: rank p * m + q for p and q, where the contract has m states.
#[derive(Drop)]
pub(crate) struct Pair<'a, P: Source> {
    pub(crate) module: Place<'a, P>,
    pub(crate) contract: Place<'a, Dense>,
    ranks: &'a [u8],
    round: u16,
    ghost room: { 2 * (length «module».row.now * length contract.row.now) ≤ length ranks.now },
}

impl<'a, P: Source> Pair<'a, P> {
    /// The pair by the closures and the ranks that a workspace holds, if it has room for them and there is such a pair.
    // The parameters stay apart: they are what callers have, and a `Pair` is found from them.
    pub(crate) fn find(
        module: &'a P,
        contract: &'a Dense,
        workspace: &'a [u8],
        round: u16,
        p: usize,
        q: usize,
    ) -> Option<Pair<'a, P>>
        ensures { MatchOption result (None ≡ first_in (P.Source.means «module».now) (meaning contract.now) workspace.now round p q) (λ pair. by_rows first_by (P.Source.means pair.«module».machine.now) (meaning pair.contract.machine.now) pair.«module».row.now pair.contract.row.now pair.round pair.ranks.now ≡ first_in (P.Source.means «module».now) (meaning contract.now) workspace.now round p q) }
    {
        let module = Place::find(module, workspace, p)?;
        let n = module.row.len();
        let contract = Place::find(contract, &workspace[n * n..], q)?;
        let m = contract.row.len();
        let ranks = &workspace[n * n + m * m..];
        if ranks.len() < 2 * (n * m) {
            return None;
        }
        Some(Pair {
            module,
            contract,
            ranks,
            round,
        })
    }

    /// The states whose pairs with `p` stood before the round.
    pub(crate) fn stood_row(&self, p: usize) -> Row
        requires { p < length self.now.«module».row.now }
        ensures { (v : ℕ) → v < 256 → in_row result v ≡ (nat_lt v (length self.now.contract.row.now) && stood_at self.now.round self.now.ranks.now (length self.now.contract.row.now) p v) }
    {
        let m = self.contract.row.len();
        Row::of(m, |v| stood_before(self.ranks, self.round, p * m + v))
    }
}
