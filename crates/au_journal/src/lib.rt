//! The journal: frames behind gates, in the areas of a disk.
#![tactic(auto)]

mod appended;
mod appending;
mod creating;
mod creation;
mod doubt;
mod flipping;
mod formatting;
mod gates;
mod head;
mod journal;
mod laws;
mod mended;
mod mending;
mod mount_fault;
mod mounting;
mod seat;
mod synced;
mod walk;
mod window;
mod writing;

pub use appended::Appended;
pub use doubt::Doubt;
pub use formatting::Formatting;
pub use journal::Journal;
pub use laws::{frames_stand_in_a_row, one_standing};
pub use mended::Mended;
pub use mount_fault::MountFault;
pub use seat::Seat;
