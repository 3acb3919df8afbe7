//! Ranks as bytes.

ghost use Rattle.std.specs.Prelude.{◌≡◌, ℕ, ◌+◌, ◌*◌, ◌<◌, ◌≤◌, length};
ghost use Rattle.clauses.specs.Ranks.{rank_at, rank_in, stood_by};

/// The rank of pair `i`, or 0 where there is none.
// Two bytes each, as the workspace is lent in bytes; a pair that is not there has rank 0, as one that stands.
pub fn rank(ranks: &[u8], i: usize) -> u16
    ensures { result ≡ rank_in ranks.now i }
{
    if i < ranks.len() / 2 {
        u16::from_le_bytes([ranks[2 * i], ranks[2 * i + 1]])
    } else {
        0
    }
}

/// Whether pair `i` stood before the round.
pub(crate) fn stood_before(ranks: &[u8], round: u16, i: usize) -> bool
    requires { 2 * i + 1 < length ranks.now }
    ensures { result ≡ stood_by round (rank_at ranks.now i) }
{
    let rank = rank(ranks, i);
    rank == 0 || rank >= round
}
