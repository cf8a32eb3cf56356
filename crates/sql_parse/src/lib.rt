//! Reads conditions, and the statements that read and change rows. The modules that are public are
//! for the readers of the other statements, whose grammar stands here too.
#![tactic(auto)]

mod atom;
mod changes;
mod conditions;
pub mod cursor;
pub mod endings;
mod expression;
pub mod lists;
pub mod literals;
pub mod names;
mod queries;
mod row_statements;
mod stop;
pub mod tables;

pub use conditions::{condition, one_condition, opens_few, tree_is_condition};
pub use row_statements::{one_row_statement, row_statement, shallow_row_statement};
pub use stop::Stop;
