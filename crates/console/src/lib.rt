//! What the programs share that people use: the texts they read, the tables they keep, and how they show what others wrote.
#![tactic(auto)]

pub mod input;
pub mod shown;
pub mod stored;
