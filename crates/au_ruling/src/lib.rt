//! What each statement comes to, by what stands before it: its code, its reply, what it changes and
//! which fine-grained policies demand a record.
#![tactic(auto)]

mod deciding;
mod kind;
mod laws;
mod ruled;
mod ruling;
mod ruling_case;
mod soundness;

pub use kind::{StatementKind, commits, is_on_rows, kind_of};
pub use laws::{rulings_are_one, rulings_can_be_written, rulings_change_rows, rulings_go_on};
pub use ruled::rule;
pub use ruling::Ruling;
pub use ruling_case::RulingCase;
pub use soundness::statements_are_sound;
