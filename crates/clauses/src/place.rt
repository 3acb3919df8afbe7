//! A state of a machine, by where silent moves lead from it.

ghost use Rattle.std.specs.Prelude.{◌≡◌, ℕ, ◌<◌, true, ◌&&◌, length, MatchOption};
ghost use Rattle.lts.specs.Labels.{member};
ghost use Rattle.lts.specs.Machines.{Machine, some_below, initial};
ghost use Rattle.clauses.specs.Ranks.{row_reads};
ghost use Rattle.clauses.specs.Candidates.{weak_by};
ghost use Rattle.clauses.specs.Workspaces.{RowOf, NoRow};

use labels::LabelSet;
use source::source::Source;

/// A state, given by its row of the closure: a byte for each state of the machine, which is 1 where silent moves lead there.
#[derive(Drop)]
pub(crate) struct Place<'a, S: Source> {
    pub(crate) machine: &'a S,
    pub(crate) row: &'a [u8],
    ghost whole: { length row.now ≡ (S.Source.means machine.now).size },
}

impl<'a, S: Source> Place<'a, S> {
    /// The state by the closure that a sheet begins with, if the sheet has room for one and it is a state.
    pub(crate) fn find(machine: &'a S, sheet: &'a [u8], state: usize) -> Option<Place<'a, S>>
        ensures { MatchOption result (NoRow (S.Source.means machine.now) sheet.now state) (λ place. (place.machine.now ≡ machine.now) × RowOf (S.Source.means machine.now) sheet.now state place.row.now) }
    {
        let n = machine.states()?;
        if state >= n || sheet.len() < n * n {
            return None;
        }
        let row = &sheet[state * n..state * n + n];
        Some(Place { machine, row })
    }

    /// Whether silent moves lead to `t`.
    pub(crate) fn reaches(&self, t: usize) -> bool
        ensures { result ≡ row_reads self.now.row.now 0 t }
    {
        self.row.get(t) == Some(&1)
    }

    /// Whether silent moves and then one on the label lead to `q`.
    pub(crate) fn weak_steps(&self, label: u8, q: usize) -> bool
        ensures { result ≡ weak_by (S.Source.means self.now.machine.now) (row_reads self.now.row.now) 0 label q }
    {
        (0..self.row.len()).any(|t| self.reaches(t) && self.machine.has_move(t, label, q))
    }

    /// The labels on the moves that silent moves lead to.
    pub(crate) fn move_labels(&self) -> LabelSet
        ensures { (l : ℕ) → l < 64 → member result.0 l ≡ some_below (S.Source.means self.now.machine.now).size (λ t. row_reads self.now.row.now 0 t && initial (S.Source.means self.now.machine.now) t l) }
    {
        (0..self.row.len())
            .filter(|t| self.reaches(*t))
            .map(|t| self.machine.initials(t))
            .fold(LabelSet::empty(), |a, b| a.union(b))
    }
}
