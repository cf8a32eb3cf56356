//! The command `init`.
ghost use Rattle.au_journal.specs.Frames.{IsLimit};
ghost use Rattle.au_main.specs.Init.{HasInit};

use crate::status::Status;
use au_io::{Clock, Disk};
use au_store::{Created, Store};
use std::alloc::Global;

/// Makes a store on the disk, whose SYS has this password and whose journal has this limit.
pub(crate) fn init<D: Disk, C: Clock>(
    alloc: Global,
    disk: &mut D,
    password: &str,
    limit: u32,
) -> Status
    requires limit { IsLimit limit }
    ensures { HasInit D.told D.meaning D.faults result password.now limit disk.old disk.new }
{
    match Store::<D, C>::create(alloc, disk, password.as_bytes(), limit) {
        Created::Done => Status::Done,
        Created::Formatted => Status::Formatted,
        Created::Disk => Status::DiskFault,
        Created::Memory => Status::Memory,
    }
}
