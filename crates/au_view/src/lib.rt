//! What is kept, as the world of queries.
#![tactic(auto)]

mod keeping;
mod laws;

pub use keeping::world;
pub use laws::keepings_are_sound_worlds;
