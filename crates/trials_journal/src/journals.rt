//! The steps of a journal that was walked to its end.
ghost use Rattle.std.specs.Prelude.{◌≡◌, ℕ, List, OnOk, true};
ghost use Rattle.au_journal.specs.Journals.{seat_of};
ghost use Rattle.au_journal.specs.Seats.{IsFramed};

use crate::fault::Fault;
use crate::walking::said_area;
use crate::words::framed_body;
use au_io::MemDisk;
use au_journal::{Appended, Doubt, Journal, Mended};
use std::alloc::Global;

/// The answer to a step of the journal.
pub fn said_step(
    alloc: Global,
    journal: &mut Journal<MemDisk>,
    step: &str,
    part: &str,
) -> Result<String, Fault>
    requires { (seat_of journal.old).ended ≡ true }
    ensures { OnOk result ((seat_of journal.new).ended ≡ true) }
{
    match step {
        "append" => append_word(alloc, journal, part, false),
        "free" => append_word(alloc, journal, part, true),
        "flip" => flip_word(alloc, journal, part),
        "mend" => said_mend(alloc, journal),
        "seat" => said_seat(alloc, journal),
        _ => Err(Fault::NoCase),
    }
}

fn append_word(
    alloc: Global,
    journal: &mut Journal<MemDisk>,
    word: &str,
    free: bool,
) -> Result<String, Fault>
    requires { (seat_of journal.old).ended ≡ true }
    ensures { OnOk result ((seat_of journal.new).ended ≡ true) }
{
    let framed = framed_body(alloc, word)?;
    let answer = append(journal, &framed, free);
    said_appended(alloc, answer)
}

// An append, which isn't asked while a doubt stands.
fn append(journal: &mut Journal<MemDisk>, framed: &[u8], free: bool) -> Option<Appended>
    requires framed { (body : List ℕ) × IsFramed framed.now body }
    requires ended { (seat_of journal.old).ended ≡ true }
    ensures { (seat_of journal.new).ended ≡ true }
{
    match journal.doubt() {
        Doubt::Settled => Some(journal.append(framed, free)),
        _ => None,
    }
}

fn flip_word(alloc: Global, journal: &mut Journal<MemDisk>, word: &str) -> Result<String, Fault>
    requires { (seat_of journal.old).ended ≡ true }
    ensures { OnOk result ((seat_of journal.new).ended ≡ true) }
{
    let framed = framed_body(alloc, word)?;
    let answer = flip(journal, &framed);
    said_appended(alloc, answer)
}

// A flip, which isn't asked while a doubt stands.
fn flip(journal: &mut Journal<MemDisk>, framed: &[u8]) -> Option<Appended>
    requires framed { (body : List ℕ) × IsFramed framed.now body }
    requires ended { (seat_of journal.old).ended ≡ true }
    ensures { (seat_of journal.new).ended ≡ true }
{
    match journal.doubt() {
        Doubt::Settled => Some(journal.flip(framed)),
        _ => None,
    }
}

fn said_appended(alloc: Global, answer: Option<Appended>) -> Result<String, Fault> {
    match answer {
        Some(Appended::Done) => Ok(format!(in alloc; "done")?),
        Some(Appended::Disk) => Ok(format!(in alloc; "disk")?),
        Some(Appended::Full { needed, limit }) => Ok(format!(in alloc; "full {needed} {limit}")?),
        None => Ok(format!(in alloc; "in doubt")?),
    }
}

fn said_mend(alloc: Global, journal: &mut Journal<MemDisk>) -> Result<String, Fault>
    requires { (seat_of journal.old).ended ≡ true }
    ensures { OnOk result ((seat_of journal.new).ended ≡ true) }
{
    match mend(journal) {
        Mended::Done => Ok(format!(in alloc; "done")?),
        Mended::Disk => Ok(format!(in alloc; "disk")?),
    }
}

fn mend(journal: &mut Journal<MemDisk>) -> Mended
    requires { (seat_of journal.old).ended ≡ true }
    ensures { (seat_of journal.new).ended ≡ true }
{
    journal.mend()
}

fn said_seat(alloc: Global, journal: &Journal<MemDisk>) -> Result<String, Fault> {
    Ok(format!(in alloc; "{} {}", said_area(journal.area()), journal.used())?)
}
