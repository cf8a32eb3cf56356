//! The command `sample`.
ghost use Rattle.std.specs.Prelude.{◌≡◌, ◌≤◌, ◌+◌, Some, IfOk, OnOk, length};
ghost use Rattle.std.specs.List.{filter};
ghost use Rattle.au_base.specs.Limits.{JOURNAL_LIMIT_DEFAULT as default_limit};
ghost use Rattle.au_io.specs.Moments.{Leaves};
ghost use Rattle.au_opening.specs.Opening.{opening};
ghost use Rattle.au_store.specs.Creating.{IsMade};
ghost use Rattle.au_store.specs.Stored.{IsKeptOn};
ghost use Rattle.au_main.specs.Means.{means_of};
ghost use Rattle.au_main.specs.Ran.{IsWriteCause};
ghost use Rattle.au_main.specs.Samples.{IsSummary, SampleTo, fine_count, first_number, first_reading, is_fine, is_of_pay, number_in, sample_password, sample_start, summary_of};
ghost use Rattle.au_main.specs.descent.Sampling.{AreAllAsked, IsReplied};

use crate::asked::Asked;
use crate::give::give;
use crate::status::Status;
use au_base::built_in::SYS;
use au_base::limits::JOURNAL_LIMIT_DEFAULT;
use au_base::{Ask, Cell, ClientNo, List, Memory, Reply, RowNo, Said, TableName};
use au_entries::{Kept, Record, RecordKind};
use au_gen::samples_are_so_long;
use au_io::{Clock, Disk, MemClock, MemDisk, Sink};
use au_report::{Summary, summary_text};
use au_store::{Created, Store, one_recovery, reopened};
use std::alloc::Global;

/// Gives the sink the summary of a sample, whose asks are done in a new store of the command's own.
///
/// That store stands on a disk in memory that lists no failing call, under the default limit, which no
/// sample comes near. So where it can't be made, opened or looked at, or one of its steps isn't replied
/// to, memory is wanted, which is the one free answer: the command ends with it, and nothing is given.
/// The asks are made one at a time, and of the replies the last one's number alone is kept.
pub(crate) fn sample<W: Sink>(alloc: Global, sink: &mut W, seed: u32, rows: u32) -> Status
    ensures ends { SampleTo result seed rows (W.given sink.old) (W.given sink.new) }
    ensures write { IsWriteCause result (W.faults sink.old) (W.faults sink.new) }
{
    match summary(alloc, seed, rows) {
        Ok(text) => give(sink, text.as_slice()),
        Err(_) => Status::Memory,
    }
}

// The text of the summary.
fn summary(alloc: Global, seed: u32, rows: u32) -> Result<Vec<u8>, Memory>
    ensures { IfOk result (λ text. IsSummary seed rows text.items) }
{
    let disk = MemDisk::new(alloc, &[])?;
    let clock = MemClock {
        next: 1_000_000,
        step: 1,
    };
    summary_on(alloc, disk, clock, seed, rows)
}

// The same, of a store that is made on the disk.
fn summary_on<D: Disk + Drop, C: Clock + Drop>(
    alloc: Global,
    disk: D,
    clock: C,
    seed: u32,
    rows: u32,
) -> Result<Vec<u8>, Memory>
    requires told { D.told }
    requires ticks { C.ticking clock ≡ Some (record { next = first_reading; step = 1 }) }
    ensures { IfOk result (λ text. IsSummary seed rows text.items) }
{
    let mut store = new_store(alloc, disk, clock)?;
    match ask_all(alloc, &mut store, seed, rows) {
        Ok(asked) => {
            let kept = kept_in(alloc, store)?;
            let summary = summary_of(asked, &kept);
            summary_text(alloc, &summary)
        }
        Err(why) => {
            drop(store);
            Err(why)
        }
    }
}

// A store that nobody has used yet, made on the disk and opened.
#[tactic(auto, unfolding(crate::specs::Samples::sample_password))]
fn new_store<D: Disk + Drop, C: Clock + Drop>(
    alloc: Global,
    disk: D,
    clock: C,
) -> Result<Store<D, C>, Memory>
    requires told { D.told }
    requires ticks { C.ticking clock ≡ Some (record { next = first_reading; step = 1 }) }
    ensures state { IfOk result (λ store. store.state ≡ sample_start) }
    ensures ticks { IfOk result (λ store. C.ticking store.clock ≡ Some (record { next = first_reading + 1; step = 1 })) }
    ensures kept { IfOk result (λ store. IsKeptOn store.state.kept (D.meaning store.disk) store.seat) }
{
    let mut disk = disk;
    match Store::<D, C>::create(alloc, &mut disk, b"p", JOURNAL_LIMIT_DEFAULT) {
        Created::Done => opened(alloc, disk, clock),
        Created::Formatted | Created::Disk | Created::Memory => Err(Memory),
    }
}

// The store that was made on the disk, opened.
fn opened<D: Disk + Drop, C: Clock + Drop>(
    alloc: Global,
    disk: D,
    clock: C,
) -> Result<Store<D, C>, Memory>
    requires told { D.told }
    requires made { Leaves (IsMade default_limit (opening sample_password)) (D.meaning disk) }
    requires ticks { C.ticking clock ≡ Some (record { next = first_reading; step = 1 }) }
    ensures state { IfOk result (λ store. store.state ≡ sample_start) }
    ensures ticks { IfOk result (λ store. C.ticking store.clock ≡ Some (record { next = first_reading + 1; step = 1 })) }
    ensures kept { IfOk result (λ store. IsKeptOn store.state.kept (D.meaning store.disk) store.seat) }
{
    reopened();
    match Store::open(alloc, disk, clock) {
        Ok(store) => Ok(store),
        Err(_) => Err(Memory),
    }
}

// Asks all that the sample asks, one ask after another, of the store that was just opened.
fn ask_all<D: Disk, C: Clock>(
    alloc: Global,
    store: &mut Store<D, C>,
    seed: u32,
    rows: u32,
) -> Result<Asked, Memory>
    requires told { D.told }
    requires ticks { C.ticking store.old.clock ≡ Some (record { next = first_reading + 1; step = 1 }) }
    requires kept { IsKeptOn store.old.state.kept (D.meaning store.old.disk) store.old.seat }
    ensures asked { IfOk result (λ asked. AreAllAsked seed rows store.old.state store.new.state asked.count asked.high) }
    ensures kept { OnOk result (IsKeptOn store.new.state.kept (D.meaning store.new.disk) store.new.seat) }
{
    samples_are_so_long();
    let mut place = 0;
    let mut high = 0;
    loop {
        match au_gen::ask(alloc, seed, rows, place)? {
            Some(ask) => {
                let reply = reply_to(alloc, store, &ask)?;
                high = number_in(&reply);
                place += 1;
            }
            None => return Ok(Asked { count: place, high }),
        }
    }
}

// The reply to one ask of the client.
fn reply_to<D: Disk, C: Clock>(
    alloc: Global,
    store: &mut Store<D, C>,
    ask: &Ask,
) -> Result<Reply, Memory>
    ensures { IfOk result (λ reply. IsReplied (means_of D.told D.meaning D.faults C.ticking) store.old store.new ask.now reply) }
{
    match store.answer(alloc, ClientNo(1), ask) {
        Said::Replied(reply) => Ok(reply),
        Said::Disk | Said::Full { .. } | Said::Memory => Err(Memory),
    }
}

// The number in an answer, which stands in the first cell of its first row; 0 where there is none.
fn number_in(reply: &Reply) -> u64
    ensures { result ≡ number_in reply.now.rows }
{
    match reply.rows.as_slice().first() {
        Some(row) => first_number(row),
        None => 0,
    }
}

fn first_number(row: &List<Cell>) -> u64
    ensures { result ≡ first_number row.now }
{
    match row.as_slice().first() {
        Some(Cell::Num(number)) => number.unsigned_abs(),
        _ => 0,
    }
}

// What the store keeps, where no step is in doubt.
fn kept_in<D: Disk + Drop, C: Clock + Drop>(
    alloc: Global,
    store: Store<D, C>,
) -> Result<Kept, Memory>
    requires told { D.told }
    requires kept { IsKeptOn store.state.kept (D.meaning store.disk) store.seat }
    ensures { IfOk result (λ kept. kept ≡ store.state.kept) }
{
    one_recovery();
    let (disk, _clock) = store.shut();
    let (_disk, found) = Store::<D, C>::look(alloc, disk);
    match found {
        Ok((kept, _used)) => Ok(kept),
        Err(_) => Err(Memory),
    }
}

// The summary of what was asked, where this is kept behind it.
fn summary_of(asked: Asked, kept: &Kept) -> Summary
    ensures { result ≡ summary_of asked.count asked.high kept.now }
{
    Summary {
        asks: asked.count,
        rows: rows_of_pay(kept.rows.as_slice()),
        high: asked.high,
        records: kept.trail.len() as u64,
        fine: fine_grained(kept.trail.as_slice()),
    }
}

fn rows_of_pay(rows: &[(TableName, RowNo, List<Cell>)]) -> u64
    ensures { result ≡ length (filter is_of_pay rows.now) }
{
    rows.iter().filter(|row| is_of_pay(row)).count() as u64
}

fn is_of_pay(row: &(TableName, RowNo, List<Cell>)) -> bool
    ensures { result ≡ is_of_pay row.now }
{
    row.0.owner.as_str() == SYS && row.0.name.as_str() == "PAY"
}

fn fine_grained(trail: &[Record]) -> u64
    ensures { result ≡ length (filter is_fine trail.now) }
{
    let mut count = 0;
    for entry in trail {
        count += fine_count(entry);
    }
    count
}

// One for a record that a fine-grained policy demanded, else nothing.
fn fine_count(entry: &Record) -> u64
    ensures value { result ≡ fine_count entry.now }
    ensures few { result ≤ 1 }
{
    match entry.kind {
        RecordKind::FineGrained => 1,
        RecordKind::Standard => 0,
    }
}
