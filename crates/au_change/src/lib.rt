//! What UPDATE and DELETE come to.
#![tactic(auto)]

mod changing;
mod clashes;
mod deleting;
mod key_rules;
mod keys;
mod laws;
mod referring;
mod repeats;
mod rows;
mod settings;
mod updating;

pub use deleting::delete;
pub use laws::changes_are_one;
pub use updating::update;
