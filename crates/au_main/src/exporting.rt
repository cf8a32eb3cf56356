//! The commands `trail` and `check`.
ghost use Rattle.std.specs.Prelude.{◌≡◌, IfOk};
ghost use Rattle.au_main.specs.Exports.{HasExport, look_status, text_of};
ghost use Rattle.au_main.specs.Given.{GivesText};
ghost use Rattle.au_main.specs.Ran.{IsWriteCause};

use crate::export::Export;
use crate::give::give;
use crate::status::Status;
use au_base::Memory;
use au_entries::Kept;
use au_io::{Clock, Disk, Sink};
use au_report::{check_text, counts_of, trail_csv};
use au_store::{LookFault, Store};
use std::alloc::Global;

/// Writes the text of the command over what the disk recovers to. It syncs the disk's areas, and
/// writes nothing to them.
pub(crate) fn export<W: Sink, D: Disk, C: Clock>(
    alloc: Global,
    command: Export,
    sink: &mut W,
    disk: D,
) -> (Status, D)
    ensures exports { HasExport D.told D.meaning D.faults command result.0 disk result.1 (W.given sink.old) (W.given sink.new) }
    ensures write { IsWriteCause result.0 (W.faults sink.old) (W.faults sink.new) }
{
    let (disk, found) = Store::<D, C>::look(alloc, disk);
    match found {
        Ok(found) => (give_text(alloc, command, sink, &found), disk),
        Err(why) => (status_of(why), disk),
    }
}

// What is kept, and the used bytes of the journal's area.
fn give_text<W: Sink>(alloc: Global, command: Export, sink: &mut W, found: &(Kept, u64)) -> Status
    ensures gives { GivesText (text_of command found.now.0 found.now.1) result (W.given sink.old) (W.given sink.new) }
    ensures write { IsWriteCause result (W.faults sink.old) (W.faults sink.new) }
{
    match text_for(alloc, command, &found.0, found.1) {
        Ok(text) => give(sink, text.as_slice()),
        Err(_) => Status::Memory,
    }
}

fn text_for(alloc: Global, command: Export, kept: &Kept, used: u64) -> Result<Vec<u8>, Memory>
    ensures { IfOk result (λ text. text.items ≡ text_of command kept.now used) }
{
    match command {
        Export::Trail => trail_csv(alloc, kept.trail.as_slice()),
        Export::Check => check_text(alloc, &counts_of(kept, used)),
    }
}

fn status_of(why: LookFault) -> Status
    ensures { result ≡ look_status why }
{
    match why {
        LookFault::Disk => Status::DiskFault,
        LookFault::Unformatted => Status::Unformatted,
        LookFault::Damaged { area, at } => Status::Damaged { area, at },
        LookFault::Memory => Status::Memory,
    }
}
