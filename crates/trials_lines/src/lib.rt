//! What the trial programs share: why a line has no answer, and names, columns and cells as lines
//! write them.
#![tactic(auto)]

mod fault;
mod reading;
mod writing;

pub use fault::Fault;
pub use reading::{cell, cells, columns, name, number};
pub use writing::{cell_text, said, yes_or_no};
