//! The outside: what the program reads from, writes to, tells the time by and keeps its bytes on.
#![tactic(auto)]

mod call;
mod clock;
mod contents;
mod deadline;
mod disk;
mod fault_plan;
mod file_disk;
mod history;
mod image;
mod link;
mod lobby;
mod mem_disk;
mod mem_link;
mod mem_lobby;
mod mem_sink;
mod mem_source;
mod no_lobby;
mod real_clock;
mod sink;
mod source;
mod standard_streams;
mod std_sink;
mod std_source;
mod stream;
mod tcp;
mod timed_stream;
mod tries;

pub use clock::{Clock, MemClock};
pub use disk::{Area, Disk, Failed};
pub use file_disk::FileDisk;
pub use link::Link;
pub use lobby::{Lobby, Next, Opened};
pub use mem_disk::MemDisk;
pub use mem_link::MemLink;
pub use mem_lobby::MemLobby;
pub use mem_sink::MemSink;
pub use mem_source::MemSource;
pub use no_lobby::{NoLink, NoLobby};
pub use real_clock::RealClock;
pub use sink::{Gave, Sink};
pub use source::{Source, Took};
pub use std_sink::StdSink;
pub use std_source::StdSource;
pub use stream::Stream;
pub use tcp::{TcpLink, TcpLobby};
