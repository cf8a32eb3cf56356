//! A worker.
use au_io::{Clock, Disk, Lobby};
use au_session::Door;
use au_store::Store;
use au_turn::{Pass, Turn};

/// A worker, with the turns of the door and of the store, and a pass of each.
pub(crate) struct Worker<'a, L: Lobby, D: Disk, C: Clock> {
    pub(crate) doors: &'a Turn<Door<L>>,
    pub(crate) stores: &'a Turn<Store<D, C>>,
    pub(crate) at_door: Pass<Door<L>>,
    pub(crate) at_store: Pass<Store<D, C>>,
}
