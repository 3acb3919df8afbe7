//! Does a module conform to a contract? One judge for every two sources.
#![tactic(auto)]

pub mod judging;
pub mod relation;
pub mod verdict;
