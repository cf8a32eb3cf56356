//! The command `run`.
ghost use Rattle.std.specs.Prelude.{◌≡◌, ◌<◌, ◌⊎◌, [], List, length};
ghost use Rattle.au_store.specs.Stored.{IsKeptOn};
ghost use Rattle.au_main.specs.Answers.{Answer};
ghost use Rattle.au_main.specs.Means.{means_of};
ghost use Rattle.au_main.specs.Ran.{HasRun, IsReadCause, IsUnopened, IsWriteCause, RanTo, status_of};
ghost use Rattle.au_main.specs.descent.Answering.{EndsLast};

use crate::answering::answer_line;
use crate::line::Line;
use crate::next_line::next_line;
use crate::status::Status;
use crate::stop::Stop;
use crate::stretch::Pending;
use au_base::Memory;
use au_io::{Clock, Disk, Sink, Source};
use au_journal::Doubt;
use au_script::Labels;
use au_store::{OpenFault, Store};
use std::alloc::Global;

/// Opens the store that stands on the disk, and does what the lines of the source say, one after
/// another.
pub(crate) fn run<S: Source, W: Sink, D: Disk, C: Clock>(
    alloc: Global,
    source: &mut S,
    sink: &mut W,
    disk: D,
    clock: C,
) -> (Status, D, C)
    ensures run { HasRun (means_of D.told D.meaning D.faults C.ticking) result.0 (S.left source.old) (S.left source.new) disk result.1 clock result.2 (W.given sink.old) (W.given sink.new)
        ⊎ (IsUnopened (means_of D.told D.meaning D.faults C.ticking) result.0 disk result.1 clock result.2 × (source.new ≡ source.old) × (sink.new ≡ sink.old)) }
    ensures read { IsReadCause result.0 (S.faults source.old) (S.faults source.new) }
    ensures write { IsWriteCause result.0 (W.faults sink.old) (W.faults sink.new) }
{
    match Store::open(alloc, disk, clock) {
        Ok(mut store) => {
            let status = do_lines(alloc, &mut store, source, sink);
            let (disk, clock) = store.shut();
            (status, disk, clock)
        }
        Err((disk, clock, why)) => (unopened_status(why), disk, clock),
    }
}

/// How a command ends where no store was opened.
pub(crate) fn unopened_status(why: OpenFault) -> Status
    ensures { result ≡ status_of why }
{
    match why {
        OpenFault::Disk => Status::DiskFault,
        OpenFault::Unformatted => Status::Unformatted,
        OpenFault::Damaged { area, at } => Status::Damaged { area, at },
        OpenFault::Worn => Status::Worn,
        OpenFault::Memory => Status::Memory,
    }
}

// Does what the lines of the source say, in a store in which no step is in doubt.
fn do_lines<S: Source, W: Sink, D: Disk, C: Clock>(
    alloc: Global,
    store: &mut Store<D, C>,
    source: &mut S,
    sink: &mut W,
) -> Status
    requires settled { store.old.seat.doubt ≡ Doubt.Settled }
    requires kept { D.told → IsKeptOn store.old.state.kept (D.meaning store.old.disk) store.old.seat }
    ensures ran { (answers : List Answer) × RanTo (means_of D.told D.meaning D.faults C.ticking) result (S.left source.old) (S.left source.new) store.old store.new answers (W.given sink.old) (W.given sink.new) }
    ensures read { IsReadCause result (S.faults source.old) (S.faults source.new) }
    ensures write { IsWriteCause result (W.faults sink.old) (W.faults sink.new) }
{
    let Ok(mut pending) = Pending::new(alloc) else {
        return Status::Memory;
    };
    let mut labels = Labels::new(alloc);
    do_each(alloc, store, &mut labels, source, &mut pending, sink)
}

// Does what the lines of the source say, one after another. No label is used yet, and nothing is
// pending.
fn do_each<S: Source, W: Sink, D: Disk, C: Clock>(
    alloc: Global,
    store: &mut Store<D, C>,
    labels: &mut Labels,
    source: &mut S,
    pending: &mut Pending,
    sink: &mut W,
) -> Status
    requires settled { store.old.seat.doubt ≡ Doubt.Settled }
    requires kept { D.told → IsKeptOn store.old.state.kept (D.meaning store.old.disk) store.old.seat }
    requires unused { labels.old ≡ [] }
    requires bytes { pending.old.bytes ≡ [] }
    requires taken { pending.old.taken ≡ 0 }
    ensures ran { (answers : List Answer) × RanTo (means_of D.told D.meaning D.faults C.ticking) result (S.left source.old) (S.left source.new) store.old store.new answers (W.given sink.old) (W.given sink.new) }
    ensures read { IsReadCause result (S.faults source.old) (S.faults source.new) }
    ensures write { IsWriteCause result (W.faults sink.old) (W.faults sink.new) }
{
    let mut number = 1;
    loop {
        match next_line(alloc, source, pending) {
            Ok(Line::Ended(line)) => match answer_line(alloc, store, labels, sink, &line) {
                Ok(()) => number += 1,
                Err(Stop::BadLine) => return Status::BadLine(number),
                Err(Stop::WriteFault) => return Status::WriteFault,
                Err(Stop::Memory) => return Status::Memory,
            },
            Ok(Line::Last(line)) => {
                return answer_last(alloc, store, labels, sink, &line, number);
            }
            Ok(Line::End) => return Status::Done,
            Ok(Line::Overlong) => return Status::BadLine(number),
            Ok(Line::Failed) => return Status::ReadFault,
            Ok(Line::Beyond) => return Status::TooLong,
            Err(Memory) => return Status::Memory,
        }
    }
}

// The line that no LF ends, at the end of the source.
fn answer_last<W: Sink, D: Disk, C: Clock>(
    alloc: Global,
    store: &mut Store<D, C>,
    labels: &mut Labels,
    sink: &mut W,
    line: &[u8],
    number: u64,
) -> Status
    requires room { length labels.old < u32.MAX }
    ensures ends { EndsLast (means_of D.told D.meaning D.faults C.ticking) labels.old labels.new number result store.old store.new line.now (W.given sink.old) (W.given sink.new) }
    ensures cause { IsWriteCause result (W.faults sink.old) (W.faults sink.new) }
{
    match answer_line(alloc, store, labels, sink, line) {
        Ok(()) => Status::Done,
        Err(Stop::BadLine) => Status::BadLine(number),
        Err(Stop::WriteFault) => Status::WriteFault,
        Err(Stop::Memory) => Status::Memory,
    }
}
