//! A copy of any source that answers every question at once, with sets of states as rows of bits.
#![tactic(auto)]

pub mod machine;
pub mod row;
