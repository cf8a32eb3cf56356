//! How statements on users, roles, tables and grants are decided.
#![tactic(auto)]

mod case;
mod columns;
mod creating;
mod deciding;
mod finding;
mod granting;
mod laws;
mod looking;
mod names;
mod roles;
mod rules;
mod tables;
mod users;

pub use case::Case;
pub use deciding::decide;
pub use laws::{definitions_hold, read_statements_are_well_formed};
pub use looking::{has_role, has_table, has_user, is_full};
pub use names::names_are_names;
pub use roles::{create_role, drop_role};
pub use tables::{create_table, drop_table};
pub use users::{alter_user, create_user, drop_user, verifier};
