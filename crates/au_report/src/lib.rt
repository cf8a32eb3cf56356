//! Texts of what is kept: the trail as comma-separated values, what a check counts, and what a sample
//! comes to.
#![tactic(auto)]

mod checking;
mod counting;
mod counts;
mod exporting;
mod joining;
mod made;
mod summarizing;
mod summary;

pub use checking::check_text;
pub use counting::counts_of;
pub use counts::Counts;
pub use exporting::trail_csv;
pub use summarizing::summary_text;
pub use summary::Summary;
