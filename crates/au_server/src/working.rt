//! Workers in threads, each with its own passes.
ghost use Rattle.std.specs.Prelude.{◌≡◌, ◌≢◌, ◌∷◌, ◌++◌, [], All, IfSome, List};
ghost use Rattle.au_io.specs.Visits.{IsFresh};
ghost use Rattle.au_turn.specs.Pass.{IsIdle, IsPassOf, mine};
ghost use Rattle.au_session.specs.Answered.{MayComeBack};
ghost use Rattle.au_session.specs.declared.drawn.DoorEntry.{DoorEntry};
ghost use Rattle.au_session.specs.declared.drawn.DoorEntry.TheVariants.{Drew};
ghost use Rattle.au_session.specs.Session.{told_of};
ghost use Rattle.au_session.specs.Stands.{drawn_entries, drawn_number};
ghost use Rattle.au_server.specs.descent.Working.{EachPair, HoldsNothing, WorkedOn};

use crate::worker::Worker;
use au_base::ClientNo;
use au_io::{Clock, Disk, Lobby};
use au_session::{Door, Drawn, Ended, serve_session};
use au_store::Store;
use au_turn::{Pass, Turn};
use std::alloc::Global;
use std::sync::Wait;
use std::thread;
use std::thread::Threads;

/// All workers at once, each in a thread of its own, until no connection is handed out to any.
pub(crate) fn work_all<R: Threads + Wait + Sync, L: Lobby, D: Disk, C: Clock>(
    rt: &R,
    alloc: Global,
    workers: &mut [Worker<'_, L, D, C>],
)
    requires { All (λ w. HoldsNothing w.doors.now w.stores.now w.at_door w.at_store) workers.old }
    ensures { EachPair (λ w v. WorkedOn w.doors.now w.stores.now v.doors.now v.stores.now v.at_door v.at_store) workers.old workers.new }
{
    let count = workers.len().max(1);
    thread::for_each_mut(
        rt,
        workers,
        count,
        &|_, worker: &mut Worker<'_, L, D, C>|
            requires { HoldsNothing worker.old.doors.now worker.old.stores.now worker.old.at_door worker.old.at_store }
            ensures { WorkedOn worker.old.doors.now worker.old.stores.now worker.new.doors.now worker.new.stores.now worker.new.at_door worker.new.at_store }
        { work(rt, alloc, worker) },
    );
}

fn work<R: Wait, L: Lobby, D: Disk, C: Clock>(
    rt: &R,
    alloc: Global,
    worker: &mut Worker<'_, L, D, C>,
)
    requires { HoldsNothing worker.old.doors.now worker.old.stores.now worker.old.at_door worker.old.at_store }
    ensures { WorkedOn worker.old.doors.now worker.old.stores.now worker.new.doors.now worker.new.stores.now worker.new.at_door worker.new.at_store }
{
    serve_connections(
        rt,
        alloc,
        worker.doors,
        worker.stores,
        &mut worker.at_door,
        &mut worker.at_store,
    );
}

// Draws connections and serves them, one after another, until none is handed out.
fn serve_connections<R: Wait, L: Lobby, D: Disk, C: Clock>(
    rt: &R,
    alloc: Global,
    doors: &Turn<Door<L>>,
    stores: &Turn<Store<D, C>>,
    at_door: &mut Pass<Door<L>>,
    at_store: &mut Pass<Store<D, C>>,
)
    requires { HoldsNothing doors.now stores.now at_door.old at_store.old }
    ensures { HoldsNothing doors.now stores.now at_door.new at_store.new }
{
    for _ in rt.forever() {
        match draw_one(rt, doors, at_door) {
            Some((client, link)) => {
                serve_one(rt, alloc, doors, stores, at_door, at_store, client, link);
            }
            None => return,
        }
    }
    unreachable!()
}

// Serves a connection as the client whose number was drawn with it, and gives it back to the door.
fn serve_one<R: Wait, L: Lobby, D: Disk, C: Clock>(
    rt: &R,
    alloc: Global,
    doors: &Turn<Door<L>>,
    stores: &Turn<Store<D, C>>,
    at_door: &mut Pass<Door<L>>,
    at_store: &mut Pass<Store<D, C>>,
    client: ClientNo,
    link: L::Link,
)
    requires client { client.0 ≢ 0 }
    requires drew { (before : List DoorEntry) × (mine at_door.old ≡ before ++ Drew client ∷ []) }
    requires ready { HoldsNothing doors.now stores.now at_door.old at_store.old }
    requires fresh { IsFresh (told_of L.Link.left L.Link.taken L.Link.given L.Link.faults link) }
    ensures { HoldsNothing doors.now stores.now at_door.new at_store.new }
{
    let mut link = link;
    let ended = serve_session(rt, alloc, &mut link, stores, at_store, client);
    hand_back(rt, doors, at_door, link, &ended);
}

// The next connection, drawn in a turn of the door.
fn draw_one<R: Wait, L: Lobby>(
    rt: &R,
    doors: &Turn<Door<L>>,
    pass: &mut Pass<Door<L>>,
) -> Option<(ClientNo, L::Link)>
    requires own { IsPassOf doors.now pass.old }
    requires idle { IsIdle pass.old }
    ensures own { IsPassOf doors.now pass.new }
    ensures idle { IsIdle pass.new }
    ensures drew { mine pass.new ≡ mine pass.old ++ drawn_entries (drawn_number result) }
    ensures client { IfSome result (λ drew. drew.0.0 ≢ 0) }
    ensures fresh { IfSome result (λ drew. IsFresh (told_of L.Link.left L.Link.taken L.Link.given L.Link.faults drew.1)) }
{
    let mut door = doors.take(rt, pass);
    let drawn = door.draw();
    let number = number_of(&drawn);
    doors.give_back(pass, door, &Drawn(number));
    drawn
}

fn number_of<K>(drawn: &Option<(ClientNo, K)>) -> Option<ClientNo>
    ensures { result ≡ drawn_number drawn.now }
{
    match drawn {
        Some((number, _)) => Some(*number),
        None => None,
    }
}

// Gives a connection back, in a turn of the door.
fn hand_back<R: Wait, L: Lobby>(
    rt: &R,
    doors: &Turn<Door<L>>,
    pass: &mut Pass<Door<L>>,
    link: L::Link,
    ended: &Ended,
)
    requires own { IsPassOf doors.now pass.old }
    requires idle { IsIdle pass.old }
    requires back { MayComeBack ended.now (told_of L.Link.left L.Link.taken L.Link.given L.Link.faults link) }
    ensures own { IsPassOf doors.now pass.new }
    ensures idle { IsIdle pass.new }
{
    let mut door = doors.take(rt, pass);
    door.take_back(link, ended);
    doors.give_back(pass, door, &Drawn(None));
}
