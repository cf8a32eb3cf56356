//! Reads calls of the procedures of DBMS_FGA and DBMS_AUDIT_MGMT, for `sql_parse_admin`.
#![tactic(auto)]

mod arguments;
mod calls;
mod procedures;

pub use calls::{call_statement, one_call_statement};
