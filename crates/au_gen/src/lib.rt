//! The sample: what one client asks of a new store, ask by ask.
#![tactic(auto)]

mod asking;
mod laws;
mod statements;

pub use asking::ask;
pub use laws::samples_are_so_long;
