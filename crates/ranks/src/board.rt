use dense::row::Row;

/// Pairs as rows of the contract's states, one for each state of the module: those that stand, and those that stand next;
/// and the states of the module that lost pairs in the round before.
// Fixed memory: a row for each state that a machine can have. Two arrays, as `cover` makes the second whole before the first round.
#[derive(Drop)]
pub(crate) struct Board {
    pub(crate) stands: [Row; 255],
    pub(crate) next: [Row; 255],
    pub(crate) changed: Row,
}
