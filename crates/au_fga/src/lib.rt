//! Fine-grained auditing: which policies demand a record of what a statement did to rows.
#![tactic(auto)]

mod candidates;
mod comparing;
mod facts;
mod finding;
mod laws;
mod marking;
mod naming;
mod ordering;
mod policies;
mod testing;
mod touching;

pub use facts::RowFacts;
pub use laws::{lawful_policies_can_be_tested, refused_statements_fire_nothing};
pub use policies::firing;
