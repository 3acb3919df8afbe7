//! The verdict on two tables as one line, for those who have only numbers and byte slices.
#![tactic(auto)]

mod calls;
mod entering;
mod inputs;
mod line;
mod outcome;
mod text;

pub use calls::verdict_line;
pub use inputs::verdict_line_of_input;
pub use text::LINE_ROOM;
