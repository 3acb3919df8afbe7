ghost use Rattle.std.specs.Prelude.{◌≡◌, ℕ, ◌<◌, ◌≤◌, slice_index_or};
ghost use Rattle.source.specs.Masks.{initials_mask};
ghost use Rattle.dense.specs.Rows.{in_row, none};
ghost use Rattle.dense.specs.Copies.{row_at, Successors, meaning, no_machine, moves_into};
ghost use Rattle.dense.specs.Sounds.{meaning_sound};

use crate::row::Row;
use labels::{LabelSet, TAU};
use source::extent::Extent;
use source::source::{MOST_STATES, Source};

/// The visible labels and the silent one.
const LABELS: usize = TAU as usize + 1;

/// A machine as the rows of its successors, one for each of 255 states and 65 labels. What lies out of range does not count,
/// and where its extent is too large, so is it.
// Fixed memory: nothing may be allocated here, so there is a row for each state and label that a machine can have.
#[derive(Drop)]
pub struct Dense {
    extent: Extent,
    rows: [[Row; LABELS]; MOST_STATES],
}

/// The states that `p` moves to on the label, which are none where it is no initial.
// Here and in the next two the size is handed down: a question for it in each row would ask the source anew.
fn copy_row<S: Source>(source: &S, n: usize, initials: LabelSet, p: usize, label: u8) -> Row
    requires states { n ≡ (S.Source.means source.now).size }
    requires asked { initials.0 ≡ initials_mask (S.Source.means source.now) p }
    ensures { Successors (S.Source.means source.now) p label result }
{
    if label < TAU && !initials.has(label) {
        return Row::empty();
    }
    Row::of(n, |q| source.has_move(p, label, q))
}

/// The same for each label.
fn copy_state<S: Source>(source: &S, n: usize, p: usize) -> [Row; LABELS]
    requires { n ≡ (S.Source.means source.now).size }
    ensures { (l : ℕ) → l ≤ 64 → Successors (S.Source.means source.now) p l (slice_index_or result l none) }
{
    let initials = source.initials(p);
    let mut rows = [Row::empty(); LABELS];
    for (label, row) in rows.iter_mut().enumerate() {
        *row = copy_row(source, n, initials, p, label as u8);
    }
    rows
}

/// The same for each state.
fn copy_rows<S: Source>(source: &S, n: usize, rows: &mut [[Row; LABELS]; MOST_STATES])
    requires { n ≡ (S.Source.means source.now).size }
    ensures { (p l : ℕ) → p < n → l ≤ 64 → Successors (S.Source.means source.now) p l (row_at rows.new p l) }
{
    for (p, row) in rows[..n].iter_mut().enumerate() {
        *row = copy_state(source, n, p);
    }
}

impl Dense {
    /// The word too-large, to copy a source into: a copy is half a megabyte, so it is made in place.
    pub fn none() -> Dense
        ensures { meaning result ≡ no_machine }
    {
        Dense {
            extent: Extent::default(),
            rows: [[Row::empty(); LABELS]; MOST_STATES],
        }
    }

    /// Asks the source once for each of its moves.
    // A step of its own after `none`: a copy is half a megabyte, and one that a function answers would be moved.
    pub fn copy<S: Source>(&mut self, source: &S)
        ensures { meaning self.new ≡ S.Source.means source.now }
    {
        match source.states() {
            None => self.extent = Extent::default(),
            Some(n) => {
                self.extent = Extent {
                    states: n as u8,
                    start: source.start() as u8,
                };
                copy_rows(source, n, &mut self.rows);
            }
        }
    }

    /// The states with a move on the label into the set.
    pub fn before(&self, label: u8, states: Row) -> Row
        ensures { (p : ℕ) → p < 256 → in_row result p ≡ moves_into (meaning self.now) label (in_row states) p }
    {
        if label > TAU {
            return Row::empty();
        }
        let n = self.extent.count();
        let inside = states.both(Row::below(n));
        Row::of(n, |p| self.rows[p][label as usize].meets(inside))
    }
}

impl Source for Dense {
    ghost means = { meaning };

    ghost sound = { meaning_sound };

    fn size(&self) -> u16 {
        self.extent.size()
    }

    fn start(&self) -> usize {
        self.extent.start()
    }

    fn has_move(&self, p: usize, label: u8, q: usize) -> bool {
        let n = self.extent.count();
        p < n && q < n && label <= TAU && self.rows[p][label as usize].has(q)
    }

    fn initials(&self, p: usize) -> LabelSet {
        let n = self.extent.count();
        if p >= n {
            return LabelSet::empty();
        }
        let all = Row::below(n);
        LabelSet::of(|label| self.rows[p][label as usize].meets(all))
    }

    fn is_stable(&self, p: usize) -> bool {
        let n = self.extent.count();
        p < n && !self.rows[p][TAU as usize].meets(Row::below(n))
    }
}
