//! The answers to the steps of a case.
ghost use Rattle.std.specs.Prelude.{◌≡◌, true};
ghost use Rattle.au_journal.specs.Journals.{seat_of};

use crate::fault::Fault;
use crate::walking::{said_area, said_bodies, said_fault, walk};
use crate::words::{first_word, number, numbers};
use crate::{disks, journals};
use au_io::MemDisk;
use au_journal::Journal;
use std::alloc::Global;

/// The answers to a case: a line, or one for each call of a range that is to fail in turn.
pub fn answers(alloc: Global, case: &str) -> Result<String, Fault> {
    let (fail, steps) = case.split_once(':').ok_or(Fault::NoCase)?;
    match fail.split_once("..") {
        Some((from, to)) => ranged(alloc, from, to, steps),
        None => {
            let fail = numbers(alloc, fail)?;
            Ok(format!(in alloc; "  {}\n", run(alloc, &fail, steps)?)?)
        }
    }
}

fn ranged(alloc: Global, from: &str, to: &str, steps: &str) -> Result<String, Fault> {
    let (before, from) = match from.split_once('+') {
        Some((before, from)) => (Some(number(before)?), from),
        None => (None, from),
    };
    let (from, to) = (number(from)?, number(to)?);
    let mut said = String::new(alloc);
    for call in from..=to {
        let answer = match before {
            Some(first) => run(alloc, &[first, first.saturating_add(call)], steps)?,
            None => run(alloc, &[call], steps)?,
        };
        said.push_str(&format!(in alloc; "  {call}: {answer}\n")?)?;
    }
    Ok(said)
}

// The answers to the steps on a disk that fails at these calls.
fn run(alloc: Global, fail: &[u64], parts: &str) -> Result<String, Fault> {
    let mut disk = MemDisk::new(alloc, fail)?;
    let mut said = String::new(alloc);
    let mut walks = false;
    for part in parts.split('|') {
        if walks {
            disk = on_journal(alloc, &mut said, disk, part)?;
        } else {
            on_disk(alloc, &mut said, &mut disk, part)?;
        }
        walks = !walks;
    }
    Ok(said)
}

fn on_disk(alloc: Global, said: &mut String, disk: &mut MemDisk, part: &str) -> Result<(), Fault> {
    for step in part.split(';') {
        let (step, part) = first_word(step.trim());
        let answer = disks::said_step(alloc, disk, step, part)?;
        add(said, &answer)?;
    }
    Ok(())
}

// Walks the disk, makes the steps where it could be walked, and gives it back.
fn on_journal(
    alloc: Global,
    said: &mut String,
    disk: MemDisk,
    part: &str,
) -> Result<MemDisk, Fault> {
    match walk(alloc, disk)? {
        Ok((journal, bodies)) => {
            let bodies = said_bodies(alloc, &bodies)?;
            add(
                said,
                &format!(in alloc; "{} {bodies}", said_area(journal.area()))?,
            )?;
            let mut journal = journal;
            make_steps(alloc, said, &mut journal, part)?;
            Ok(journal.shut())
        }
        Err((disk, why)) => {
            add(said, &said_fault(alloc, why)?)?;
            Ok(disk)
        }
    }
}

fn make_steps(
    alloc: Global,
    said: &mut String,
    journal: &mut Journal<MemDisk>,
    part: &str,
) -> Result<(), Fault>
    requires { (seat_of journal.old).ended ≡ true }
{
    for step in part.split(';') {
        let (step, part) = first_word(step.trim());
        let answer = journals::said_step(alloc, journal, step, part)?;
        add(said, &answer)?;
    }
    Ok(())
}

// One answer more, behind `; ` where it isn't the first.
fn add(said: &mut String, answer: &str) -> Result<(), Fault> {
    if !said.is_empty() {
        said.push_str("; ")?;
    }
    said.push_str(answer)?;
    Ok(())
}
