//! The steps of a case: commands on a disk that fails, and what a crash leaves of it.

use crate::asks::{push_answers, push_counts, script_of};
use crate::ends::push_short;
use crate::fault::Fault;
use crate::frame::write_end;
use crate::outside::{CLOCK, Handed, Outcome, command};
use crate::texts::push_joined;
use crate::words::{first_word, number};
use au_io::{Area, Disk, MemDisk};
use au_main::Status;
use std::alloc::Global;

// The pick of what was synced, that of what reads, and bytes to fill with.
const PICKS: [u8; 5] = [0, 1, 0x42, 0x5a, 0xa5];

// The area's head and its first gate, the framed image, and the start of the first run.
const BEHIND_START: u64 = 14 + 306 + 31;

/// Adds what comes of a step. The disk is what the step leaves.
pub fn push_step(
    alloc: Global,
    disk: &mut MemDisk,
    step: &str,
    said: &mut String,
) -> Result<(), Fault> {
    let (step, part) = first_word(step);
    match step {
        "init" => init(alloc, disk, part, said),
        "run" => run(alloc, disk, part, said),
        "open" => open(alloc, disk, said),
        "check" => check(alloc, disk, said),
        "letter" => letter(disk, said),
        "crash" => crash(alloc, disk, part, said),
        "grow" => grow(alloc, disk, number(part)?, said),
        "images" => images(alloc, disk, said),
        _ => Err(Fault::NoCase),
    }
}

// Makes a store whose journal has this limit, or the program's own where none is named.
fn init(alloc: Global, disk: &mut MemDisk, limit: &str, said: &mut String) -> Result<(), Fault> {
    let mut words = String::from_str(alloc, "init --sys-password p")?;
    if !limit.is_empty() {
        write!(words, " --limit {limit}")?;
    }
    let made = command(alloc, &words, &Handed::of("", CLOCK), disk)?;
    push_short(said, made.status)
}

fn run(alloc: Global, disk: &mut MemDisk, asks: &str, said: &mut String) -> Result<(), Fault> {
    let script = script_of(alloc, asks)?;
    let ran = command(alloc, "run", &Handed::of(&script, CLOCK), disk)?;
    push_run(said, &ran)
}

// Adds the answers, how often the clock was read, and how the run ended, where that isn't that all was
// done.
fn push_run(said: &mut String, ran: &Outcome) -> Result<(), Fault> {
    push_answers(said, &ran.given)?;
    write!(said, ", {} readings", ran.readings)?;
    if ran.status != Status::Done {
        said.push_str(", ")?;
        push_short(said, ran.status)?;
    }
    Ok(())
}

// How a run without an ask ends.
fn open(alloc: Global, disk: &mut MemDisk, said: &mut String) -> Result<(), Fault> {
    let ran = command(alloc, "run", &Handed::of("", CLOCK), disk)?;
    push_short(said, ran.status)
}

// The lines of a check, or how it ends.
fn check(alloc: Global, disk: &mut MemDisk, said: &mut String) -> Result<(), Fault> {
    let counted = command(alloc, "check", &Handed::of("", CLOCK), disk)?;
    match counted.status {
        Status::Done => push_joined(said, &counted.given, ", "),
        status => push_short(said, status),
    }
}

// The byte of Head that reads.
fn letter(disk: &mut MemDisk, said: &mut String) -> Result<(), Fault> {
    let mut letter = [0u8; 1];
    match disk.read(Area::Head, 0, &mut letter)? {
        0 => said.push_str("no letter")?,
        _ => write!(said, "letter {}", letter[0])?,
    }
    Ok(())
}

// Puts the picked image in the place of the disk.
fn crash(alloc: Global, disk: &mut MemDisk, pick: &str, said: &mut String) -> Result<(), Fault> {
    let pick = pick.parse().map_err(|_| Fault::NoCase)?;
    *disk = disk.image(alloc, pick)?;
    said.push_str("crashed")?;
    Ok(())
}

// Writes what stands behind the start of the first run so many times more, up to the closed gate, and
// adds how long area A is then.
fn grow(alloc: Global, disk: &mut MemDisk, times: u64, said: &mut String) -> Result<(), Fault> {
    let frames = frames_behind(alloc, disk)?;
    let mut bytes = Vec::new(alloc);
    for _time in 0..times {
        bytes.extend_from_slice(&frames)?;
    }
    bytes.push(0)?;
    write_end(disk, Area::A, &bytes)?;
    let size = disk.size(Area::A)?;
    write!(said, "{size} bytes")?;
    Ok(())
}

// The frames behind the start of the first run.
fn frames_behind(alloc: Global, disk: &mut MemDisk) -> Result<Vec<u8>, Fault> {
    let size = disk.size(Area::A)?;
    let length = size.checked_sub(BEHIND_START + 1).ok_or(Fault::NoCase)?;
    let mut frames = vec![in alloc; 0u8; length as usize]?;
    disk.read(Area::A, BEHIND_START, &mut frames)?;
    Ok(frames)
}

fn images(alloc: Global, disk: &MemDisk, said: &mut String) -> Result<(), Fault> {
    let mut before = "";
    for pick in PICKS {
        said.push_str(before)?;
        push_image(alloc, disk, pick, said)?;
        before = " | ";
    }
    Ok(())
}

fn push_image(alloc: Global, disk: &MemDisk, pick: u8, said: &mut String) -> Result<(), Fault> {
    let mut image = disk.image(alloc, pick)?;
    push_counted(alloc, &mut image, said)
}

// What a run counts there, or how it ends.
fn push_counted(alloc: Global, image: &mut MemDisk, said: &mut String) -> Result<(), Fault> {
    let script = script_of(alloc, "local count rows")?;
    let ran = command(alloc, "run", &Handed::of(&script, CLOCK), image)?;
    match ran.status {
        Status::Done => push_counts(said, &ran.given),
        status => push_short(said, status),
    }
}
