//! What auditing leaves of an event: the records, and the results of conditions that are kept.
#![tactic(auto)]

mod audited;
mod evaluating;
mod keeping;
mod laws;
mod left;
mod recording;

pub use audited::Audited;
pub use keeping::forget;
pub use laws::{records_can_be_written, results_stay_in_order};
pub use left::Left;
pub use recording::left_by;
