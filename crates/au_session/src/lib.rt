//! One connection, and the door where connections are handed out.
#![tactic(auto)]

mod door;
mod drawn;
mod ended;
mod serving;
mod streams;
mod turns;

pub use door::Door;
pub use drawn::{DoorEntry, Drawn};
pub use ended::Ended;
pub use serving::serve_session;
