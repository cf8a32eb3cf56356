//! The words of the command line.
#![tactic(auto)]

mod command;
mod init;
mod laws;
mod numbers;
mod options;
mod reading;
mod sample;
mod serve;

pub use command::Command;
pub use laws::one_command;
pub use reading::command_of;
