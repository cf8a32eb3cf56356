//! The command `serve`.
ghost use Rattle.std.specs.Prelude.{◌≡◌, ◌⊎◌};
ghost use Rattle.au_main.specs.Means.{means_of};
ghost use Rattle.au_main.specs.Ran.{IsUnopened};
ghost use Rattle.au_main.specs.Serves.{HasServed, asked_of, status_at};

use crate::run::unopened_status;
use crate::status::Status;
use au_io::{Clock, Disk, Lobby};
use au_server::End;
use au_store::Store;
use std::alloc::Global;
use std::sync::Wait;
use std::thread::Threads;

/// Opens the store that stands on the disk, and serves connections of the lobby at the port, by this
/// number of workers. It serves all that come where the number of connections is 0.
pub(crate) fn serve<R: Threads + Wait + Sync, D: Disk, C: Clock, L: Lobby>(
    rt: &R,
    alloc: Global,
    port: u16,
    workers: u32,
    connections: u32,
    disk: D,
    clock: C,
    lobby: L,
) -> (Status, D, C, L)
    ensures serves { HasServed (means_of D.told D.meaning D.faults C.ticking) result.0 (asked_of connections) disk result.1 clock result.2 (L.visits lobby) (L.visits result.3) (L.faults lobby) (L.faults result.3)
        ⊎ (IsUnopened (means_of D.told D.meaning D.faults C.ticking) result.0 disk result.1 clock result.2 × (result.3 ≡ lobby)) }
{
    match Store::open(alloc, disk, clock) {
        Ok(store) => {
            let asked = asked_of(connections);
            let (end, store, lobby) = au_server::serve(
                rt, alloc, store, lobby, port, workers, asked,
            );
            store.at_rest();
            let (disk, clock) = store.shut();
            (status_at(end), disk, clock, lobby)
        }
        Err((disk, clock, why)) => (unopened_status(why), disk, clock, lobby),
    }
}

// 0 connections stand for all that come.
fn asked_of(connections: u32) -> Option<u32>
    ensures { result ≡ asked_of connections }
{
    match connections {
        0 => None,
        some => Some(some),
    }
}

fn status_at(end: End) -> Status
    ensures { result ≡ status_at end }
{
    match end {
        End::Done => Status::Done,
        End::LobbyFault => Status::LobbyFault,
        End::Memory => Status::Memory,
    }
}
