//! The enabled audit policies, found by buckets.
#![tactic(auto)]

mod bucketed;
mod buckets;
mod changing;
mod enabling;
mod finding;
mod index;
mod joining;
mod naming;
mod putting;
mod reserving;
mod resolving;
mod roles;
mod settling;
mod shift;
mod staged;
mod staging;
mod testing;

pub use index::Index;
pub use staged::StagedIndex;
