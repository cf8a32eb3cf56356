//! What is so of the numbers, moments and texts in the values of each statement that is read.
#![tactic(auto)]

mod laws;

pub use laws::literals_are_sound;
