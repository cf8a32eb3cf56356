//! How calls of packages are decided, and what the decisions on auditing share: the case, the rights
//! and the rules.
#![tactic(auto)]

mod archiving;
mod arguments;
mod calling;
mod case;
mod fine_grained;
mod laws;
mod literals;
mod once;
mod pieces;
mod reading;
mod requests;
mod rights;
mod rules;

pub use calling::call;
pub use case::AuditCase;
pub use laws::{calls_hold, rights_are_one};
pub use once::names_once;
pub use reading::{is_bad, is_wrong, wrong_code};
pub use requests::{FgaFlags, FgaParts, parts_of, target_of};
pub use rights::{AuditRights, may_not_audit, rights_of, used_by};
pub use rules::{Effect, changes_alone, decide_by};
