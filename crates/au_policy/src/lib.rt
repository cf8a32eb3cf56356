//! What the audit policies demand of a statement, asked one after another.
#![tactic(auto)]

mod asking;
mod condition;
mod demanding;
mod finding;
mod laws;

pub use asking::{add_asked, is_meant};
pub use condition::{is_met, is_new, kept_result};
pub use demanding::{demanded, is_unrecorded, place_mandatory};
pub use finding::is_policy_on;
pub use laws::{demanding_names_stand_in_order, lawful_policies_can_be_asked};
