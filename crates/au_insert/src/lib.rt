//! What INSERT comes to.
#![tactic(auto)]

mod inserting;
mod laws;
mod placing;
mod row;
mod values;

pub use inserting::insert;
pub use laws::insertions_are_one;
