//! The steps of a disk.

use crate::fault::Fault;
use crate::walking::{said_area, said_bodies, said_fault, walk};
use crate::words::{area_named, bytes_of, first_word, framed_body, number};
use au_io::{Area, Disk, Failed, MemDisk};
use au_journal::{Formatting, Journal};
use std::alloc::Global;

// The pick of what was synced, that of what reads, and bytes to fill with.
const PICKS: [u8; 5] = [0, 1, 0x42, 0x5a, 0xa5];

// As much of an area as a case reads.
const ROOM: usize = 64;

/// The answer to a step of the disk.
pub fn said_step(
    alloc: Global,
    disk: &mut MemDisk,
    step: &str,
    part: &str,
) -> Result<String, Fault> {
    match step {
        "format" => said_format(alloc, disk, part),
        "put" => said_put(alloc, disk, part),
        "cut" => {
            let (area, size) = first_word(part);
            said_done(alloc, cut(disk, area_named(area)?, number(size)?))
        }
        "read" => said_read(alloc, disk, area_named(part)?),
        "images" => said_images(alloc, disk),
        _ => Err(Fault::NoCase),
    }
}

fn said_format(alloc: Global, disk: &mut MemDisk, part: &str) -> Result<String, Fault> {
    let (limit, word) = first_word(part);
    let limit: u32 = limit.parse().map_err(|_| Fault::NoCase)?;
    if limit < 400 || limit > 2_147_483_647 {
        return Err(Fault::NoCase);
    }
    let framed = framed_body(alloc, word)?;
    match Journal::format(disk, &framed, limit) {
        Formatting::Done => Ok(format!(in alloc; "done")?),
        Formatting::Formatted => Ok(format!(in alloc; "formatted")?),
        Formatting::Disk => Ok(format!(in alloc; "disk")?),
    }
}

fn said_put(alloc: Global, disk: &mut MemDisk, part: &str) -> Result<String, Fault> {
    let (area, rest) = first_word(part);
    let (place, word) = first_word(rest);
    let bytes = bytes_of(alloc, word)?;
    said_done(alloc, put(disk, area_named(area)?, number(place)?, &bytes))
}

fn put(disk: &mut MemDisk, area: Area, at: u64, bytes: &[u8]) -> Result<(), Failed> {
    match disk.size(area)? {
        size if at <= size => disk.write_at(area, at, bytes),
        _ => Err(Failed),
    }
}

fn cut(disk: &mut MemDisk, area: Area, size: u64) -> Result<(), Failed> {
    match disk.size(area)? {
        held if size <= held => disk.cut(area, size),
        _ => Err(Failed),
    }
}

fn said_done(alloc: Global, answer: Result<(), Failed>) -> Result<String, Fault> {
    match answer {
        Ok(()) => Ok(format!(in alloc; "done")?),
        Err(Failed) => Ok(format!(in alloc; "failed")?),
    }
}

fn said_read(alloc: Global, disk: &mut MemDisk, area: Area) -> Result<String, Fault> {
    let mut room = [0u8; ROOM];
    let mut said = String::new(alloc);
    match disk.read(area, 0, &mut room) {
        Ok(count) => {
            for byte in &room[..count] {
                said.push_str(&format!(in alloc; "{byte:02x}")?)?;
            }
        }
        Err(Failed) => said.push_str("failed")?,
    }
    Ok(said)
}

fn said_images(alloc: Global, disk: &mut MemDisk) -> Result<String, Fault> {
    let mut said = String::new(alloc);
    for pick in PICKS {
        if !said.is_empty() {
            said.push_str(" | ")?;
        }
        let image = disk.image(alloc, pick)?;
        said.push_str(&said_image(alloc, image)?)?;
    }
    Ok(said)
}

fn said_image(alloc: Global, image: MemDisk) -> Result<String, Fault> {
    match walk(alloc, image)? {
        Ok((journal, bodies)) => {
            let bodies = said_bodies(alloc, &bodies)?;
            Ok(format!(in alloc; "{} {bodies}", said_area(journal.area()))?)
        }
        Err((_, why)) => said_fault(alloc, why),
    }
}
