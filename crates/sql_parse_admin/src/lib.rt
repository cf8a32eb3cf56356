//! Reads texts as statements: those about rows by `sql_parse`, calls of procedures by
//! `sql_parse_calls`, and here those about tables, users, roles, rights and audit policies.
#![tactic(auto)]

mod actions;
mod audits;
mod grants;
mod passwords;
mod policies;
mod policy_clauses;
mod policy_conditions;
mod privileges;
mod rights_statements;
mod statements;
mod table_definitions;
mod users;
mod words;

pub use passwords::passwords_are_placed;
pub use statements::{one_reading, read};
