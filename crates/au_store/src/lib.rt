//! The store: the state over a journal on a disk.
#![tactic(auto)]

mod created;
mod creating;
mod deed;
mod ends;
mod entry;
mod held;
mod laws;
mod look_fault;
mod looking;
mod open_fault;
mod preparing;
mod ready;
mod replaying;
mod starting;
mod stepping;
mod store;
mod writing;

pub use created::Created;
pub use deed::Deed;
pub use entry::{Entry, Whole};
pub use laws::{never_damaged, one_cause, one_doubt, one_end, one_recovery, reopened};
pub use look_fault::LookFault;
pub use open_fault::OpenFault;
pub use store::Store;
