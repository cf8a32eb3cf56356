//! The tokens of a statement's text.
#![tactic(auto)]

mod gap;
mod lexeme;
mod mark;
mod run;
mod scan;
mod token;

pub use scan::{cut_as_told, one_way, tokens};
pub use token::{Kind, LexFault, Mark, Token};
