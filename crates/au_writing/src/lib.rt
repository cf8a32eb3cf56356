//! That what a statement on rows comes to can be written.
#![tactic(auto)]

mod laws;

pub use laws::plans_can_be_written;
