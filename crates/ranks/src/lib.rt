//! Pairs of states struck in rounds, until a round strikes none.
#![tactic(auto)]

mod board;
mod covers;
pub mod filling;
mod marks;
mod rounds;
mod sides;
mod states;
mod steps;
