//! Serving the connections of a lobby.
ghost use Rattle.std.specs.Prelude.{◌≡◌, ◌≢◌, ◌⊎◌, ◌++◌, ◌≤◌, IfSome, List, true, false};
ghost use mathlib.Core.List.{IsPrefix};
ghost use Rattle.au_session.specs.declared.drawn.DoorEntry.{DoorEntry};
ghost use Rattle.au_session.specs.Spent.{IsSpent};
ghost use Rattle.au_session.specs.Stands.{DoorStands};
ghost use Rattle.au_store.specs.declared.entry.Entry.{Entry};
ghost use Rattle.au_store.specs.History.{StandsFor, first_of};
ghost use Rattle.au_turn.specs.Pass.{IsIdle, IsPassOf, seen};
ghost use Rattle.au_server.specs.Ends.{EndsTo, IsEmptied};
ghost use Rattle.au_server.specs.descent.Closing.{ClosesTo};

use crate::end::End;
use crate::hiring::{gather, hire};
use crate::working::work_all;
use au_io::{Clock, Disk, Lobby, Opened};
use au_session::{Door, Ended};
use au_store::Store;
use au_turn::{Pass, Turn};
use std::alloc::Global;
use std::sync::Wait;
use std::thread::Threads;

/// Opens the lobby at the port, and serves its connections by `workers` workers: `asked` of them, or all
/// that come. The store and the lobby come back.
///
/// A worker holds the store for one statement at a time, and the door while it waits for a connection.
/// Where there is no memory for all workers there are fewer of them, and where there is none for any it
/// ends with `Memory`. The other connections are served on where one ends for want of memory.
pub fn serve<R: Threads + Wait + Sync, L: Lobby, D: Disk, C: Clock>(
    rt: &R,
    alloc: Global,
    store: Store<D, C>,
    lobby: L,
    port: u16,
    workers: u32,
    asked: Option<u32>,
) -> (End, Store<D, C>, L)
    ensures store { ((result.1 ≡ store) × (result.0 ≢ End.Done)) ⊎ ((entries : List Entry) × StandsFor D.told D.meaning D.faults result.1 (first_of D.faults store ++ entries)) }
    ensures ends { EndsTo result.0 asked (L.visits lobby) (L.visits result.2) (L.faults lobby) (L.faults result.2) }
{
    let mut lobby = lobby;
    match lobby.open(port) {
        Opened::Ready => serve_door(rt, alloc, store, Door::new(lobby, asked), workers, asked),
        Opened::Failed => (End::LobbyFault, store, lobby),
    }
}

// Serves the connections that are drawn at the door.
fn serve_door<R: Threads + Wait + Sync, L: Lobby, D: Disk, C: Clock>(
    rt: &R,
    alloc: Global,
    store: Store<D, C>,
    door: Door<L>,
    workers: u32,
    asked: Option<u32>,
) -> (End, Store<D, C>, L)
    requires { (door.drawn ≡ 0) × (door.back ≡ 0) × (door.failed ≡ false) }
    ensures store { ((result.1 ≡ store) × (result.0 ≢ End.Done)) ⊎ ((entries : List Entry) × StandsFor D.told D.meaning D.faults result.1 (first_of D.faults store ++ entries)) }
    ensures ends { EndsTo result.0 asked (L.visits door.lobby) (L.visits result.2) (L.faults door.lobby) (L.faults result.2) }
{
    match Turn::open(alloc, door) {
        Ok((doors, at_door)) => {
            let (door, store, hired) = serve_turns(rt, alloc, store, doors, at_door, workers);
            let (end, lobby) = close(door, asked, hired);
            (end, store, lobby)
        }
        Err((door, _)) => (End::Memory, store, door.into_lobby()),
    }
}

// The door and the store once the workers have ended, and whether there was any.
fn serve_turns<R: Threads + Wait + Sync, L: Lobby, D: Disk, C: Clock>(
    rt: &R,
    alloc: Global,
    store: Store<D, C>,
    doors: Turn<Door<L>>,
    mut at_door: Pass<Door<L>>,
    count: u32,
) -> (Door<L>, Store<D, C>, bool)
    requires { IsPassOf doors at_door × IsIdle at_door }
    ensures door { (history : List DoorEntry) × IsPrefix (seen at_door) history
        × DoorStands (L.visits result.0.lobby) (L.faults result.0.lobby) result.0.drawn result.0.back result.0.failed history }
    ensures store { ((result.1 ≡ store) × (result.2 ≡ false)) ⊎ ((entries : List Entry) × StandsFor D.told D.meaning D.faults result.1 (first_of D.faults store ++ entries)) }
{
    match Turn::open(alloc, store) {
        Ok((stores, mut at_store)) => {
            let mut workers = Vec::new(alloc);
            hire(
                &doors,
                &stores,
                &mut at_door,
                &mut at_store,
                &mut workers,
                count,
            );
            let hired = !workers.is_empty();
            work_all(rt, alloc, workers.as_mut_slice());
            gather(&doors, &stores, &mut at_door, &mut at_store, workers);
            let store = stores.close(rt, at_store);
            (doors.close(rt, at_door), store, hired)
        }
        Err((store, _)) => (doors.close(rt, at_door), store, false),
    }
}

// How serving ends at this door, which no worker holds. It is asked for one more connection, so that it
// says why none is handed out; one that comes isn't served. Where no worker was hired it isn't asked,
// since it might wait.
fn close<L: Lobby>(door: Door<L>, asked: Option<u32>, hired: bool) -> (End, L)
    ensures closes { (history : List DoorEntry) → DoorStands (L.visits door.lobby) (L.faults door.lobby) door.drawn door.back door.failed history
        → ClosesTo result.0 asked history (L.visits result.1) (L.faults result.1) }
    ensures short { result.0 ≡ End.Done → door.short ≡ false }
    ensures hired { hired ≡ false → result.0 ≢ End.Done }
{
    let mut door = door;
    if !hired {
        return (End::Memory, door.into_lobby());
    }
    if let Some((_, link)) = door.draw() {
        door.take_back(link, &Ended::Memory);
        return (End::Memory, door.into_lobby());
    }
    (end_of(&door, asked), door.into_lobby())
}

// How serving ends at this door, which hands nothing out.
fn end_of<L: Lobby>(door: &Door<L>, asked: Option<u32>) -> End
    requires { IsSpent (L.visits door.now.lobby) door.now.left door.now.drawn door.now.failed }
    ensures done { result ≡ End.Done → (door.now.back ≡ door.now.drawn) × (door.now.short ≡ false) × (door.now.failed ≡ false) × IsEmptied (L.visits door.now.lobby) door.now.drawn asked × IfSome asked (λ most. door.now.drawn ≤ most) }
    ensures fault { result ≡ End.LobbyFault → door.now.failed ≡ true }
{
    if door.failed {
        return End::LobbyFault;
    }
    if door.short || door.back != door.drawn {
        return End::Memory;
    }
    match asked {
        Some(most) if most < door.drawn => End::Memory,
        Some(most) if most == door.drawn => End::Done,
        _ if door.left == Some(0) => End::Memory,
        _ => End::Done,
    }
}
