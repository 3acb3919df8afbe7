//! Sources: what answers questions about one machine. The trait, and tables as the sources that layers are put over.
#![tactic(auto)]

pub mod extent;
pub mod refusal;
pub mod source;
pub mod table;
