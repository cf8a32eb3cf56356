//! The top call: all that the program does, on the outside that it is handed.
#![tactic(auto)]

mod answering;
mod asked;
mod command;
mod export;
mod exporting;
mod give;
mod init;
mod line;
mod next_line;
mod refill;
mod run;
mod sampling;
mod serve;
mod status;
mod stop;
mod stretch;

pub use command::{alone, top};
pub use export::Export;
pub use status::Status;
