//! What became of the condition in a statement: whether its text can be read, whether a policy may
//! have it, and which code refuses it.
#![tactic(auto)]

mod calls;
mod laws;
mod statements;
mod texts;

pub use laws::{conditions_are_read, expression_codes_fit};
pub use statements::read_condition;
