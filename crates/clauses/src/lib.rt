//! The candidates of a pair of states, and the first that fails.
#![tactic(auto)]

pub mod counterexample;
mod moves;
mod pair;
mod place;
pub mod ranks;
pub mod rests;
pub mod scan;
