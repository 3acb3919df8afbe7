//! The five calls on a house in definitions: which tests each makes, what it answers and leaves, what a run of calls
//! leaves, and the promise. Here are the types that they speak of.
#![tactic(auto)]

mod display;
mod environment;
mod refusal;
mod request;
mod seat;

pub use environment::Nobody;
pub use refusal::Refusal;
pub use request::{Reply, Request};
pub use seat::{Pile, Seat};
