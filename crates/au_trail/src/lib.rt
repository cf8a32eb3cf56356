//! The audit trail: the records that a statement leaves in it, and what a purge leaves of it.
#![tactic(auto)]

mod numbering;
mod purging;
mod recording;

pub use purging::purge;
pub use recording::records;
