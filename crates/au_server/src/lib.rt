//! The server: workers who share a store and the door where connections are drawn.
#![tactic(auto)]

mod end;
mod hiring;
mod serving;
mod worker;
mod working;

pub use end::End;
pub use serving::serve;
