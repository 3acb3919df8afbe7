/// Why a pair of states is not in the relation.
#[derive(Clone, Copy, PartialEq, Eq, Debug)]
pub enum Counterexample {
    /// The module moves on the label to the state, and the contract makes no such move to a state that stands with it.
    Move { label: u8, state: usize },
    /// The module comes to rest at the state, and the contract at none that has no other initials and has the label.
    Rest { label: Option<u8>, state: usize },
}
