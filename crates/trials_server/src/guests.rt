//! A lobby whose connections wait for each other.
ghost use Rattle.std.specs.Prelude.{None};

use crate::visit::{Part, Visit};
use au_io::{Gave, Link, Lobby, Next, Opened, Sink, Source, Stream, Took};
use std::alloc::Global;
use std::sync::atomic::AtomicU64;
use std::sync::atomic::Ordering::SeqCst;
use std::thread;

// How often a wait looks at its count before it gives up.
const LOOKS: u64 = 50_000_000;

// How often a connection that lingers looks whether it need not.
const LINGER_LOOKS: u64 = 20_000;

/// What a lobby and its connections count: how often the lobby was asked for a connection, the responses
/// that all connections were given, and how often a connection was shut.
#[derive(Drop)]
pub struct Counts {
    pub asked: AtomicU64,
    pub given: AtomicU64,
    pub shut: AtomicU64,
}

impl Counts {
    /// Counts at 0.
    pub fn new() -> Counts {
        Counts {
            asked: AtomicU64::new(0),
            given: AtomicU64::new(0),
            shut: AtomicU64::new(0),
        }
    }

    // Waits until the part may be sent, and then as long as it lingers.
    fn allow(&self, part: &Part) -> bool {
        let may = reaches(&self.given, part.after, LOOKS)
            && reaches(&self.asked, part.asked, LOOKS);
        let _asked = reaches(&self.asked, part.lingers, LINGER_LOOKS);
        may
    }
}

// Waits until the count has reached the number. False if it gave up after so many looks.
fn reaches(count: &AtomicU64, number: u64, looks: u64) -> bool {
    for _look in 0..looks {
        if count.load(SeqCst) >= number {
            return true;
        }
        thread::yield_now();
    }
    false
}

/// A lobby that hands out each connection once the number of shut connections is what it waits for.
#[derive(Drop)]
pub struct Guests<'a> {
    /// The connections that were finished.
    pub finished: Vec<Guest<'a>>,
    /// The port at which it was opened last.
    pub port: Option<u16>,
    /// The most connections that were handed out and not yet finished.
    pub most: u64,
    out: u64,
    visits: &'a [Visit],
    counts: &'a Counts,
    /// How many were handed out.
    pub handed: u64,
    faults: u64,
    alloc: Global,
}

impl<'a> Guests<'a> {
    /// A lobby of these connections.
    pub fn new(alloc: Global, visits: &'a [Visit], counts: &'a Counts) -> Guests<'a> {
        Guests {
            finished: Vec::new(alloc),
            port: None,
            most: 0,
            out: 0,
            visits,
            counts,
            handed: 0,
            faults: 0,
            alloc,
        }
    }
}

impl<'a> Lobby for Guests<'a> {
    type Link = Guest<'a>;

    ghost visits = { λ _. None };

    ghost faults = { λ lobby. lobby.faults };

    ghost plan = { λ _. None };

    ghost within = { λ _. tt };

    fn open(&mut self, port: u16) -> Opened {
        self.port = Some(port);
        Opened::Ready
    }

    fn next(&mut self) -> Next<Guest<'a>> {
        self.counts.asked.fetch_add(1, SeqCst);
        let Some((visit, rest)) = self.visits.split_first() else {
            return Next::Closed;
        };
        if !reaches(&self.counts.shut, visit.comes, LOOKS) {
            self.faults = self.faults.saturating_add(1);
            return Next::Failed;
        }
        let number = self.handed;
        self.visits = rest;
        self.handed = number.saturating_add(1);
        self.out = self.out.saturating_add(1);
        self.most = self.most.max(self.out);
        Next::Link(Guest {
            number,
            given: Vec::new(self.alloc),
            shuts: 0,
            parts: &visit.parts,
            counts: self.counts,
            faults: 0,
        })
    }

    fn finish(&mut self, link: Guest<'a>) {
        self.out = self.out.saturating_sub(1);
        let _missing = self.finished.push(link);
    }
}

/// A connection that sends each part once the counts allow it.
#[derive(Drop)]
pub struct Guest<'a> {
    /// How many connections came before it.
    pub number: u64,
    pub given: Vec<u8>,
    /// How often it was shut.
    pub shuts: u64,
    parts: &'a [Part],
    counts: &'a Counts,
    faults: u64,
}

impl Stream for Guest<'_> {
    ghost left = { λ _. None };

    ghost taken = { λ _. None };

    ghost given = { λ _. None };

    ghost faults = { λ guest. guest.faults };
}

impl Source for Guest<'_> {
    ghost plan = { λ _. None };

    // a part is shorter than the room that it is asked for
    fn take(&mut self, room: &mut [u8]) -> Took {
        let Some((part, rest)) = self.parts.split_first() else {
            return Took::End;
        };
        if !self.counts.allow(part) {
            self.faults = self.faults.saturating_add(1);
            return Took::Failed;
        }
        self.parts = rest;
        let count = part.text.len().min(room.len());
        if count == 0 {
            return Took::End;
        }
        room[..count].copy_from_slice(&part.text.as_bytes()[..count]);
        Took::Bytes(count)
    }
}

impl Sink for Guest<'_> {
    ghost short = { λ _. 0 };

    ghost plan = { λ _. None };

    // a response is whole where its body ends, which is an object
    fn give(&mut self, bytes: &[u8]) -> Gave {
        if self.given.extend_from_slice(bytes).is_err() {
            self.faults = self.faults.saturating_add(1);
            return Gave::Failed;
        }
        if bytes.ends_with(b"}") {
            self.counts.given.fetch_add(1, SeqCst);
        }
        Gave::Bytes(bytes.len())
    }
}

impl Link for Guest<'_> {
    fn shut(&mut self) {
        self.shuts = self.shuts.saturating_add(1);
        self.counts.shut.fetch_add(1, SeqCst);
    }
}
