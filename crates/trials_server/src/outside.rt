//! The program's commands on an outside in memory.
ghost use Rattle.std.specs.Prelude.{All, IfOk};
ghost use Rattle.au_io.specs.MemLink.{link_told};
ghost use Rattle.au_io.specs.Visits.{IsFresh};

use crate::shown::{push_end, push_lines};
use crate::visit::Visit;
use crate::words::words_of;
use au_base::ClientNo;
use au_io::{Lobby, MemClock, MemDisk, MemLink, MemSink, MemSource};
use au_main::top;
use au_session::{Ended, serve_session};
use au_store::Store;
use au_turn::Turn;
use std::alloc::Global;
use std::mem;
use std::sync::Wait;
use std::thread::Threads;
use trials_lines::Fault;

const CLOCK: MemClock = MemClock {
    next: 1_000_000,
    step: 1,
};

// The bytes that source and sink take a call.
const PIECE: usize = 4096;

/// The disk and the script on which commands are done.
#[derive(Drop)]
pub struct Outside {
    pub disk: MemDisk,
    pub script: String,
}

impl Outside {
    /// An empty disk and an empty script.
    pub fn new(alloc: Global) -> Result<Outside, Fault> {
        Ok(Outside {
            disk: MemDisk::new(alloc, &[])?,
            script: String::new(alloc),
        })
    }

    /// Does a command that is handed this lobby, and adds how it ended and what was given.
    pub fn command<R: Threads + Wait + Sync, L: Lobby + Drop>(
        &mut self,
        rt: &R,
        alloc: Global,
        words: &str,
        lobby: L,
        said: &mut String,
    ) -> Result<L, Fault> {
        let words = words_of(alloc, words)?;
        let mut source = MemSource::new(alloc, self.script.as_bytes(), PIECE, &[])?;
        let mut sink = MemSink::new(alloc, PIECE, &[])?;
        let held = mem::replace(&mut self.disk, MemDisk::new(alloc, &[])?);
        let (status, left, _clock, lobby) = top(
            rt,
            alloc,
            &words,
            &mut source,
            &mut sink,
            held,
            CLOCK,
            lobby,
        );
        self.disk = left;
        push_end(said, status)?;
        push_lines(said, sink.given())?;
        Ok(lobby)
    }

    /// Serves the connection alone, on the store that the disk recovers to. It returns why it ended.
    pub fn session<R: Wait>(
        &mut self,
        rt: &R,
        alloc: Global,
        link: &mut MemLink,
    ) -> Result<Ended, Fault> {
        let held = mem::replace(&mut self.disk, MemDisk::new(alloc, &[])?);
        let (left, ended) = open_once(rt, alloc, held, link);
        self.disk = left;
        ended
    }
}

// Opens the store, serves the connection, and shuts the store.
fn open_once<R: Wait>(
    rt: &R,
    alloc: Global,
    disk: MemDisk,
    link: &mut MemLink,
) -> (MemDisk, Result<Ended, Fault>) {
    match Store::open(alloc, disk, CLOCK) {
        Ok(store) => {
            let (store, ended) = serve_once(rt, alloc, store, link);
            let (disk, _clock) = store.shut();
            (disk, ended)
        }
        Err((disk, _clock, _why)) => (disk, Err(Fault::NoCase)),
    }
}

// Serves the connection as that of client 1.
fn serve_once<R: Wait>(
    rt: &R,
    alloc: Global,
    store: Store<MemDisk, MemClock>,
    link: &mut MemLink,
) -> (Store<MemDisk, MemClock>, Result<Ended, Fault>) {
    match Turn::open(alloc, store) {
        Ok((turn, mut pass)) => {
            let ended = serve_session(rt, alloc, link, &turn, &mut pass, ClientNo(1));
            (turn.close(rt, pass), Ok(ended))
        }
        Err((store, _)) => (store, Err(Fault::Memory)),
    }
}

/// Connections in memory, which take and give at most `piece` bytes a call.
pub fn links_of(alloc: Global, visits: &[Visit], piece: usize) -> Result<Vec<MemLink>, Fault>
    ensures { IfOk result (λ links. All (λ link. IsFresh (link_told link)) links.items) }
{
    let mut links = Vec::new(alloc);
    for visit in visits {
        links.push(link_of(alloc, visit, piece)?)?;
    }
    Ok(links)
}

fn link_of(alloc: Global, visit: &Visit, piece: usize) -> Result<MemLink, Fault>
    ensures { IfOk result (λ link. IsFresh (link_told link)) }
{
    let text = visit.text(alloc)?;
    Ok(MemLink {
        source: MemSource::new(alloc, text.as_bytes(), piece, &visit.takes)?,
        sink: MemSink::new(alloc, piece, &visit.gives)?,
    })
}
