//! The lines of scripts as asks, and the texts of what is said.
#![tactic(auto)]

mod asks;
mod labels;
mod laws;
mod lines;

pub use au_http::said_json as said_text;
pub use labels::Labels;
pub use laws::say_one_thing;
pub use lines::{ScriptLine, line};
