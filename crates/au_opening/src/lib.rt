//! What is kept in a store that nobody has used yet.
#![tactic(auto)]

mod laws;
mod opening;
mod passwords;

pub use laws::opening_is_kept;
pub use opening::opening_changes;
pub use passwords::verifier;
