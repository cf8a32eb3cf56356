//! The passes of the workers: split off for them, and joined again.
ghost use Rattle.std.specs.Prelude.{All};
ghost use mathlib.Core.List.{IsPrefix};
ghost use Rattle.au_turn.specs.Pass.{seen};
ghost use Rattle.au_server.specs.descent.Working.{HoldsNothing, WorkedOn};

use crate::worker::Worker;
use au_io::{Clock, Disk, Lobby};
use au_session::Door;
use au_store::Store;
use au_turn::{Pass, Turn};

/// Splits off the passes of `count` workers, or of fewer where memory ends.
pub(crate) fn hire<'a, L: Lobby, D: Disk, C: Clock>(
    doors: &'a Turn<Door<L>>,
    stores: &'a Turn<Store<D, C>>,
    at_door: &mut Pass<Door<L>>,
    at_store: &mut Pass<Store<D, C>>,
    workers: &mut Vec<Worker<'a, L, D, C>>,
    count: u32,
)
    requires ready { HoldsNothing doors.now stores.now at_door.old at_store.old }
    requires all { All (λ w. WorkedOn doors.now stores.now w.doors.now w.stores.now w.at_door w.at_store) workers.old.items }
    ensures ready { HoldsNothing doors.now stores.now at_door.new at_store.new }
    ensures door_seen { IsPrefix (seen at_door.old) (seen at_door.new) }
    ensures store_seen { IsPrefix (seen at_store.old) (seen at_store.new) }
    ensures all { All (λ w. WorkedOn doors.now stores.now w.doors.now w.stores.now w.at_door w.at_store) workers.new.items }
{
    for _ in 0..count {
        if workers.reserve(1).is_err() {
            return;
        }
        let Ok(door) = doors.split(at_door) else {
            return;
        };
        let Ok(store) = stores.split(at_store) else {
            doors.join(at_door, door);
            return;
        };
        workers.push_reserved(Worker {
            doors,
            stores,
            at_door: door,
            at_store: store,
        });
    }
}

/// Joins the workers' passes to these.
pub(crate) fn gather<L: Lobby, D: Disk, C: Clock>(
    doors: &Turn<Door<L>>,
    stores: &Turn<Store<D, C>>,
    at_door: &mut Pass<Door<L>>,
    at_store: &mut Pass<Store<D, C>>,
    mut workers: Vec<Worker<'_, L, D, C>>,
)
    requires ready { HoldsNothing doors.now stores.now at_door.old at_store.old }
    requires all { All (λ w. WorkedOn doors.now stores.now w.doors.now w.stores.now w.at_door w.at_store) workers.items }
    ensures ready { HoldsNothing doors.now stores.now at_door.new at_store.new }
    ensures door_seen { IsPrefix (seen at_door.old) (seen at_door.new) }
    ensures store_seen { IsPrefix (seen at_store.old) (seen at_store.new) }
{
    while let Some(worker) = workers.pop() {
        let Worker {
            doors: _,
            stores: _,
            at_door: door,
            at_store: store,
        } = worker;
        doors.join(at_door, door);
        stores.join(at_store, store);
    }
    workers.destroy_empty();
}
