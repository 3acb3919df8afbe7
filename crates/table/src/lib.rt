//! Reads the text of a table: its states, its start and its moves, or the first fault in it.
#![tactic(auto)]

mod checked;
mod display;
mod fault;
mod field;
mod figure;
mod head;
mod line;
mod moves;
mod reader;

pub use checked::{Checked, LONGEST, Summary, check};
pub use fault::Fault;
pub use figure::small_figure;
pub use head::Head;
pub use line::Line;
pub use reader::Reader;
