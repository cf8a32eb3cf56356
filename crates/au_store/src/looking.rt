//! Looking at a store.
ghost use Rattle.std.specs.Prelude.{◌≡◌, IfOk, IfErr, OnOk};
ghost use Rattle.au_io.specs.Disk.{Stays};
ghost use Rattle.au_journal.specs.Walk.{IsStill};
ghost use Rattle.au_store.specs.Looking.{LookMeets, LookSays, ReadsUpTo};

use crate::replaying::recover;
use crate::{LookFault, Store};
use au_entries::Kept;
use au_io::{Clock, Disk};
use au_journal::Journal;
use std::alloc::Global;

impl<D: Disk, C: Clock> Store<D, C> {
    /// What is kept on the disk, and the used length of its selected area in bytes. It syncs the three
    /// areas first, and writes nothing. The disk comes back.
    pub fn look(alloc: Global, disk: D) -> (D, Result<(Kept, u64), LookFault>)
        ensures found { D.told → IfOk result.1 (λ found. ReadsUpTo found.0 found.1 (D.meaning disk).reads) }
        ensures why { D.told → IfErr result.1 (LookSays (D.meaning disk).reads) }
        ensures synced { D.told → OnOk result.1 (IsStill (D.meaning result.0)) }
        ensures stays { Stays (D.meaning disk) (D.meaning result.0) }
        ensures cause { LookMeets result.1 (D.faults disk) (D.faults result.0) }
    {
        let mut journal = match Journal::mount(disk) {
            Ok(journal) => journal,
            Err((disk, why)) => return (disk, Err(LookFault::from(why))),
        };
        match recover(alloc, &mut journal) {
            Ok(engine) => {
                let used = journal.used();
                let disk = journal.shut();
                match engine.into_kept(alloc) {
                    Ok(kept) => (disk, Ok((kept, used))),
                    Err(_) => (disk, Err(LookFault::Memory)),
                }
            }
            Err(why) => (journal.shut(), Err(why)),
        }
    }
}
