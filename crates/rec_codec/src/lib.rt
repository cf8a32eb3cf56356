//! The frames of the journal: how their bodies are spelled, written and read.
#![tactic(auto)]

mod changes;
mod enabled;
mod fine_grained;
mod frame;
mod frames;
mod image_writer;
mod listed;
mod policies;
mod record_parts;
mod records;

pub use frame::Frame;
pub use frames::{one_front, one_reading, read, write, write_framed};
pub use image_writer::{ImageWriter, writes_join};
