//! The program's commands on an outside in memory: a disk, a source, a sink and a clock.
ghost use Rattle.au_main.specs.Serves.{SaysServe};

use crate::fault::Fault;
use crate::words::{says_serve, words_of};
use au_base::{Memory, Text};
use au_io::{MemClock, MemDisk, MemSink, MemSource, NoLobby};
use au_main::{Status, alone, top};
use std::alloc::Global;
use std::mem;
use std::sync::Wait;
use std::thread::Threads;

/// A clock that reads 1,000,000, and then one more each time.
pub const CLOCK: MemClock = MemClock {
    next: 1_000_000,
    step: 1,
};

/// What a command is handed beside its words and its disk.
#[derive(Clone, Copy)]
pub struct Handed<'a> {
    /// What the source has.
    pub input: &'a str,
    /// How many bytes source and sink take a call.
    pub piece: usize,
    /// The calls of the source that fail.
    pub source_faults: &'a [u64],
    /// The calls of the sink that fail.
    pub sink_faults: &'a [u64],
    pub clock: MemClock,
}

impl<'a> Handed<'a> {
    /// This input in pieces of 4,096 bytes, no faults, and this clock.
    pub fn of(input: &'a str, clock: MemClock) -> Handed<'a> {
        Handed {
            input,
            piece: 4096,
            source_faults: &[],
            sink_faults: &[],
            clock,
        }
    }
}

/// How a command ended, what was given, and how often the clock was read, if each step of it is one.
#[derive(Drop)]
pub struct Outcome {
    pub status: Status,
    pub given: String,
    pub readings: u64,
}

// What a command is handed beside its disk, and what is left of it.
#[derive(Drop)]
struct Rest {
    words: Vec<Text>,
    source: MemSource,
    sink: MemSink,
    clock: MemClock,
    first: u64,
}

/// Does the command of these words, which isn't `serve`, by the call that takes no lobby. The disk is what
/// it leaves.
pub fn command(
    alloc: Global,
    words: &str,
    handed: &Handed<'_>,
    disk: &mut MemDisk,
) -> Result<Outcome, Fault> {
    let mut rest = rest_of(alloc, words, handed)?;
    if says_serve(&rest.words) {
        return Err(Fault::NoCase);
    }
    by_alone(alloc, &mut rest, disk)
}

/// Does it by the call that is handed a lobby.
pub fn top_command<R: Threads + Wait + Sync>(
    rt: &R,
    alloc: Global,
    words: &str,
    handed: &Handed<'_>,
    disk: &mut MemDisk,
) -> Result<Outcome, Fault> {
    let mut rest = rest_of(alloc, words, handed)?;
    by_top(rt, alloc, &mut rest, disk)
}

/// Puts an empty disk in the place of the disk.
pub fn blank(alloc: Global, disk: &mut MemDisk) -> Result<(), Fault> {
    *disk = MemDisk::new(alloc, &[])?;
    Ok(())
}

/// Puts a new store, whose SYS has the password `p`, in the place of the disk.
pub fn make_store(alloc: Global, disk: &mut MemDisk) -> Result<(), Fault> {
    blank(alloc, disk)?;
    let made = command(alloc, "init --sys-password p", &Handed::of("", CLOCK), disk)?;
    match made.status {
        Status::Done => Ok(()),
        _ => Err(Fault::NoCase),
    }
}

fn rest_of(alloc: Global, words: &str, handed: &Handed<'_>) -> Result<Rest, Fault> {
    Ok(Rest {
        words: words_of(alloc, words)?,
        source: MemSource::new(
            alloc,
            handed.input.as_bytes(),
            handed.piece,
            handed.source_faults,
        )?,
        sink: MemSink::new(alloc, handed.piece, handed.sink_faults)?,
        clock: handed.clock,
        first: handed.clock.next,
    })
}

fn by_alone(alloc: Global, rest: &mut Rest, disk: &mut MemDisk) -> Result<Outcome, Fault>
    requires { ¬ (SaysServe rest.old.words.items) }
{
    let held = take(alloc, disk)?;
    let (status, left, clock) = alone(
        alloc,
        &rest.words,
        &mut rest.source,
        &mut rest.sink,
        held,
        rest.clock,
    );
    *disk = left;
    rest.clock = clock;
    outcome_of(alloc, status, rest)
}

fn by_top<R: Threads + Wait + Sync>(
    rt: &R,
    alloc: Global,
    rest: &mut Rest,
    disk: &mut MemDisk,
) -> Result<Outcome, Fault> {
    let held = take(alloc, disk)?;
    let (status, left, clock, _lobby) = top(
        rt,
        alloc,
        &rest.words,
        &mut rest.source,
        &mut rest.sink,
        held,
        rest.clock,
        NoLobby,
    );
    *disk = left;
    rest.clock = clock;
    outcome_of(alloc, status, rest)
}

// The disk, in whose place an empty one is left.
fn take(alloc: Global, disk: &mut MemDisk) -> Result<MemDisk, Memory> {
    let empty = MemDisk::new(alloc, &[])?;
    Ok(mem::replace(disk, empty))
}

fn outcome_of(alloc: Global, status: Status, rest: &Rest) -> Result<Outcome, Fault> {
    let given = str::from_utf8(rest.sink.given()).map_err(|_| Fault::NoCase)?;
    Ok(Outcome {
        status,
        given: String::from_str(alloc, given)?,
        readings: rest.clock.next.saturating_sub(rest.first),
    })
}
