//! A turn, which hands a value to one holder at a time, and passes that know its one growing history.
#![tactic(auto)]

mod held;
mod made;
mod pass;
mod rule;
mod turn;
mod view;

pub use held::Held;
pub use made::Made;
pub use pass::Pass;
pub use turn::Turn;
