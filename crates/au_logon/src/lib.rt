//! How logons are decided.
#![tactic(auto)]

mod admission;
mod admitting;
mod finding;
mod laws;
mod naming;

pub use admission::Admission;
pub use admitting::{admit, admit_local};
pub use laws::admissions_hold;
