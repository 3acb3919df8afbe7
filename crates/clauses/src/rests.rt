//! The second clause: where the module can come to rest, the contract can with no other initials.

ghost use Rattle.std.specs.Prelude.{◌≡◌, ℕ, ◌<◌, true, false, ◌&&◌, MatchOption};
ghost use Rattle.lts.specs.Labels.{member};
ghost use Rattle.lts.specs.Machines.{Machine, some_below, each_below, implies, stable, initial};
ghost use Rattle.source.specs.Masks.{initials_mask};
ghost use Rattle.clauses.specs.Ranks.{row_reads};
ghost use Rattle.dense.specs.Rows.{in_row};
ghost use Rattle.clauses.specs.Candidates.{rests_at, AllInitials, first_rest_at, rests_from, first_rest, as_rest};
ghost use Rattle.clauses.specs.Uncovered.{uncovered_by, uncovered_in};

use crate::counterexample::Counterexample;
use crate::place::Place;
use dense::row::Row;
use labels::LabelSet;
use source::source::Source;

/// Whether each of the labels is among the others.
fn inside(labels: LabelSet, others: LabelSet) -> bool
    ensures { result ≡ each_below 64 (λ l. implies (member labels.0 l) (member others.0 l)) }
{
    labels.union(others) == others
}

impl<Q: Source> Place<'_, Q> {
    /// Whether silent moves lead to a rest at `v`.
    fn comes_to_rest(&self, v: usize) -> bool
        ensures { result ≡ (row_reads self.now.row.now 0 v && stable (Q.Source.means self.now.machine.now) v) }
    {
        self.reaches(v) && self.machine.is_stable(v)
    }

    /// The initials of `v` if silent moves lead to a rest there and they are among the allowed ones.
    fn rest_initials(&self, allowed: LabelSet, v: usize) -> Option<LabelSet>
        ensures { MatchOption result (rests_at (Q.Source.means self.now.machine.now) (row_reads self.now.row.now) 0 (member allowed.0) v ≡ false) (λ x. (rests_at (Q.Source.means self.now.machine.now) (row_reads self.now.row.now) 0 (member allowed.0) v ≡ true) × (x.0 ≡ initials_mask (Q.Source.means self.now.machine.now) v)) }
    {
        if !self.comes_to_rest(v) {
            return None;
        }
        let initials = self.machine.initials(v);
        inside(initials, allowed).then_some(initials)
    }

    /// All initials of the states where silent moves lead to a rest with no initials but the allowed ones, if there are any.
    fn rests(&self, allowed: LabelSet) -> Option<LabelSet>
        ensures { MatchOption result (some_below (Q.Source.means self.now.machine.now).size (rests_at (Q.Source.means self.now.machine.now) (row_reads self.now.row.now) 0 (member allowed.0)) ≡ false) (λ labels. AllInitials (Q.Source.means self.now.machine.now) (rests_at (Q.Source.means self.now.machine.now) (row_reads self.now.row.now) 0 (member allowed.0)) labels.0) }
    {
        (0..self.row.len())
            .filter_map(|v| self.rest_initials(allowed, v))
            .reduce(|a, b| a.union(b))
    }

    /// The first label, none before all, with which a rest of the module at the state is not covered.
    fn failing_at<P: Source>(&self, module: &P, state: usize) -> Option<(Option<u8>, usize)>
        ensures { result ≡ first_rest_at (P.Source.means «module».now) (Q.Source.means self.now.machine.now) (row_reads self.now.row.now) 0 state }
    {
        let allowed = module.initials(state);
        let Some(covered) = self.rests(allowed) else {
            return Some((None, state));
        };
        allowed.iter().find_map(|label| (!covered.has(label)).then_some((Some(label), state)))
    }

    /// The same, if silent moves of a state of the module lead to a rest there.
    fn failing_from<P: Source>(
        &self,
        module: &Place<'_, P>,
        state: usize,
    ) -> Option<(Option<u8>, usize)>
        ensures { result ≡ rests_from (P.Source.means «module».now.machine.now) (Q.Source.means self.now.machine.now) (row_reads «module».now.row.now) (row_reads self.now.row.now) 0 0 state }
    {
        if !module.comes_to_rest(state) {
            return None;
        }
        self.failing_at(module.machine, state)
    }

    /// The first rest of a state of the module, by state and then by label, that is not covered.
    pub(crate) fn failing_rest<P: Source>(&self, module: &Place<'_, P>) -> Option<Counterexample>
        ensures { result ≡ as_rest (first_rest (P.Source.means «module».now.machine.now) (Q.Source.means self.now.machine.now) (row_reads «module».now.row.now) (row_reads self.now.row.now) 0 0) }
    {
        (0..module.row.len())
            .find_map(|state| self.failing_from(module, state))
            .map(|(label, state)| Counterexample::Rest { label, state })
    }

    /// The stable states at which a rest of the module is not covered.
    fn uncovered<P: Source>(&self, module: &P) -> Row
        ensures { (p : ℕ) → p < 256 → in_row result p ≡ uncovered_by (P.Source.means «module».now) (Q.Source.means self.now.machine.now) (row_reads self.now.row.now) 0 p }
    {
        Row::of(
            256,
            |state| module.is_stable(state) && self.failing_at(module, state).is_some(),
        )
    }
}

/// The stable states of the module at which a rest is not covered from `q` by the closure that a sheet begins with.
/// There are none where the sheet has no room for one, or `q` is no state.
pub fn uncovered<P: Source, Q: Source>(module: &P, contract: &Q, sheet: &[u8], q: usize) -> Row
    ensures { (p : ℕ) → p < 256 → in_row result p ≡ uncovered_in (P.Source.means «module».now) (Q.Source.means contract.now) sheet.now q p }
{
    let Some(place) = Place::find(contract, sheet, q) else {
        return Row::empty();
    };
    place.uncovered(module)
}
