//! Plans of statements on rows: what a SELECT, COUNT, INSERT, UPDATE or DELETE comes to, and which
//! fine-grained policies demand a record of it.
#![tactic(auto)]

mod changed_rows;
mod changes_firing;
mod changing;
mod firing;
mod laws;
mod lending;
mod planning;
mod querying;
mod refusing;
mod watching;

pub use au_world::{RowPlan, World};
pub use laws::{lawful_catalogues_can_be_planned, plans_hold};
pub use planning::plan;
