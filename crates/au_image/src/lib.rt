//! The image of what is kept: all of it as changes of nothing, written entry by entry.
#![tactic(auto)]

mod entries;
mod imaging;
mod recording;
mod rows;
mod told;

pub use imaging::image;
pub use rows::copy_rows;
pub use told::Told;
