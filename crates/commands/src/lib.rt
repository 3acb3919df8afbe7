//! The calls on a house as lines of text.
#![tactic(auto)]

mod command;
mod names;
mod words;

pub use command::{Command, Unclear, parse};
