//! The rows of a table that WHERE of an UPDATE or a DELETE chooses.
#![tactic(auto)]

mod choosing;
mod codes;
mod passing;
mod range;

pub use choosing::choose;
pub use codes::{where_kind_code, where_name_code};
pub use range::range_in;
