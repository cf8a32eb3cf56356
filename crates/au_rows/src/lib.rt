//! The rows of one store: what is committed of each, and what open transactions have made of them.
#![tactic(auto)]

mod block;
mod blocks;
mod chains;
mod changes;
mod closing;
mod counts;
mod dropping;
mod ending;
mod ends;
mod entry;
mod guesses;
mod hash;
mod keys;
mod links;
mod node;
mod ordered;
mod place;
mod places;
mod reading;
mod rows;
mod seeking;
mod slots;
mod sought;
mod table;
mod tables;
mod unsettled;
mod version;
mod versions;
mod walk;

pub use rows::Rows;
