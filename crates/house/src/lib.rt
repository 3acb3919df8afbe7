//! The house: tables and six seats in memory of fixed size, and the five calls on it. Its invariant is that each pile
//! that is fitted conforms to its contract, so what is fitted gets stuck only where the contracts can.
#![tactic(auto)]

mod house;

pub use house::{House, SEATS};
