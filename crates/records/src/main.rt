//! The program `records`.
#![tactic(auto)]

use au_base::{Memory, Text};
use au_io::{FileDisk, RealClock, StdSink, StdSource, TcpLobby};
use au_main::{Status, top};
use std::alloc::Global;
use std::env;
use std::io::{Error, ErrorKind};
use std::process::ExitCode;
use std::rt::Env;
use std::sync::Wait;
use std::thread::Threads;

/// Why there are no words.
#[derive(Clone, Copy, Debug, PartialEq, Eq)]
enum NoWords {
    /// They can't be read, or one of them isn't UTF-8.
    Unread,
    Memory,
}

impl From<Memory> for NoWords {
    fn from(_: Memory) -> Self {
        NoWords::Memory
    }
}

// The words after the program's name.
fn words(rt: &(impl Env + AllocGlobal)) -> Result<Vec<Text>, NoWords> {
    let mut words = Vec::new(rt.alloc());
    let arguments = env::args(rt).map_err(|error| why_none(&error))?;
    for argument in arguments.skip(1) {
        words
            .push(Text::from_string(argument))
            .map_err(|_| NoWords::Memory)?;
    }
    Ok(words)
}

fn why_none(error: &Error) -> NoWords {
    match error.kind() {
        ErrorKind::OutOfMemory => NoWords::Memory,
        _ => NoWords::Unread,
    }
}

// A block just below the largest, of 33,554,432 bytes, for which the C library's allocator raises
// its thresholds (mallopt(3), M_MMAP_THRESHOLD).
const RAISING_BLOCK: usize = 32_000_000;

// That allocator gives what is free at the end of its heap back to the system once it is more than a
// threshold, which is low until a large block was taken and freed. One such block, of which nothing
// is written, keeps what a statement frees at hand for the next. Where the system refuses it, all
// goes on as before.
fn keep_what_is_freed(alloc: Global) {
    let _block = Vec::<u8>::with_capacity(alloc, RAISING_BLOCK);
}

// Does what the words say, on the system's outside: the standard streams, the files of the working
// folder, of which none is made before it is asked for, the system's clock, and a port of 127.0.0.1.
fn run<R: Threads + Wait + Sync>(rt: HostRuntime, threads: &R, words: &[Text]) -> Status {
    let mut source = StdSource::new(rt.stdin());
    let mut sink = StdSink::new(rt.stdout());
    let disk = FileDisk::new(rt);
    let clock = RealClock::new(rt);
    let lobby = TcpLobby::new(rt);
    let (status, _disk, _clock, _lobby) = top(
        threads,
        rt.alloc(),
        words,
        &mut source,
        &mut sink,
        disk,
        clock,
        lobby,
    );
    status
}

fn main(rt: HostRuntime) -> ExitCode {
    keep_what_is_freed(rt.alloc());
    let status = match words(&rt) {
        Ok(words) => run(rt, &rt, &words),
        Err(NoWords::Unread) => Status::Usage,
        Err(NoWords::Memory) => Status::Memory,
    };
    if status != Status::Done {
        let _ = eprintln!(rt; "{status}");
    }
    ExitCode::from(status.number())
}
