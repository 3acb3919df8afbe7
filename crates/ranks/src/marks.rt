//! Ranks, written where a round strikes.

ghost use Rattle.std.specs.Prelude.{◌≡◌, ℕ, ◌+◌, ◌*◌, ◌/◌, ◌%◌, ◌<◌, ◌≤◌, not, ◌&&◌, length, ◌==◌, nat_lt, slice_set};
ghost use Rattle.lts.specs.Machines.{some_below};
ghost use Rattle.dense.specs.Rows.{in_row};
ghost use Rattle.ranks.specs.Marks.{Marked};
ghost use Rattle.ranks.specs.Steps.{in_rows, lost};

use crate::board::Board;
use dense::row::Row;

/// Writes the rank of pair `i`.
fn put_rank(ranks: &mut [u8], i: usize, rank: u16)
    requires { 2 * i + 1 < length ranks.old }
    ensures { ranks.new ≡ slice_set (slice_set ranks.old (2 * i) (rank % 256)) (2 * i + 1) (rank / 256) }
{
    ranks[2 * i..2 * i + 2].copy_from_slice(&rank.to_le_bytes());
}

/// Writes the round at each pair of `p` that it struck.
fn mark_row(ranks: &mut [u8], m: usize, p: usize, struck: Row, round: u16)
    requires { 2 * (p * m + m) ≤ length ranks.old }
    ensures { Marked m round (λ a b. (a == p) && in_row struck b) ranks.old ranks.new }
{
    // By number: of what is written through `chunks_exact_mut`, the proof cannot tell which ranks it changed.
    for q in 0..m {
        if struck.has(q) {
            put_rank(ranks, p * m + q, round);
        }
    }
}

impl Board {
    /// Writes the round at each pair that stands and does not stand next: it stands no longer, and its row has changed.
    // The board knows no sizes, so its bounds are asked here.
    pub(crate) fn mark_rows(&mut self, ranks: &mut [u8], n: usize, m: usize, round: u16)
        requires room { 2 * (n * m) ≤ length ranks.old }
        requires few { (n ≤ 255) × (m ≤ 255) }
        ensures marked { Marked m round (λ a b. nat_lt a n && lost self.old.stands self.old.next a b) ranks.old ranks.new }
        ensures stands { (p q : ℕ) → p < n → q < m → in_rows self.new.stands p q ≡ (in_rows self.old.stands p q && in_rows self.old.next p q) }
        ensures next { self.new.next ≡ self.old.next }
        ensures changed { (p : ℕ) → p < 256 → in_row self.new.changed p ≡ (nat_lt p n && some_below m (lost self.old.stands self.old.next p)) }
    {
        let all = Row::below(m);
        let mut changed = Row::empty();
        // By number: a state has its place in both arrays and among the ranks.
        for p in 0..n {
            let struck = self.stands[p].without(self.next[p]).both(all);
            if !struck.is_empty() {
                self.stands[p] = self.stands[p].without(struck);
                mark_row(ranks, m, p, struck, round);
                changed = changed.with(p);
            }
        }
        self.changed = changed;
    }
}
