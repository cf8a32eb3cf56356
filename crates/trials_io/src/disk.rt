//! A disk in memory, and what a crash leaves of it.

use crate::fault::Fault;
use crate::words::{first_word, number, numbers};
use au_io::{Area, Disk, Failed, MemDisk};
use std::alloc::Global;

// The pick of what was synced, that of what reads, and bytes to fill with.
const PICKS: [u8; 5] = [0, 1, 0x42, 0x5a, 0xa5];

/// What the calls answer, then what the image of each pick reads of the area that was named last.
pub fn disk_lines(alloc: Global, parts: &str, calls: &str) -> Result<String, Fault> {
    let fail = numbers(alloc, parts)?;
    let mut disk = MemDisk::new(alloc, &fail)?;
    let mut area = Area::A;
    let mut lines = String::new(alloc);
    for call in calls.split(';') {
        match first_word(call.trim()) {
            ("on", name) => area = area_named(name)?,
            (call, part) => lines.push_str(&said_call(alloc, &mut disk, area, call, part)?)?,
        }
    }
    lines.push_str(&format!(in alloc; "  short {}\n", disk.short())?)?;
    for pick in PICKS {
        let mut image = disk.image(alloc, pick)?;
        let said = said_image(alloc, &mut image, area)?;
        lines.push_str(&format!(in alloc; "  {pick:02x}  {said}\n")?)?;
    }
    Ok(lines)
}

/// The area of this name.
pub fn area_named(name: &str) -> Result<Area, Fault> {
    match name {
        "head" => Ok(Area::Head),
        "a" => Ok(Area::A),
        "b" => Ok(Area::B),
        _ => Err(Fault::NoCase),
    }
}

fn said_call(
    alloc: Global,
    disk: &mut MemDisk,
    area: Area,
    call: &str,
    part: &str,
) -> Result<String, Fault> {
    match call {
        "write" => {
            let (place, text) = first_word(part);
            said_done(alloc, put(disk, area, number(place)?, text.as_bytes()))
        }
        "cut" => said_done(alloc, shorten(disk, area, number(part)?)),
        "sync" => said_done(alloc, Done::of(disk.sync(area))),
        "read" => said_read(alloc, disk, area, number(part)?),
        _ => Err(Fault::NoCase),
    }
}

/// How a write, a cut or a sync came out.
#[derive(Clone, Copy)]
pub enum Done {
    Done,
    Failed,
    /// The area doesn't reach there, and nothing was asked for.
    PastTheEnd,
}

impl Done {
    /// How the call came out that answers so.
    pub fn of(answer: Result<(), Failed>) -> Done {
        match answer {
            Ok(()) => Done::Done,
            Err(Failed) => Done::Failed,
        }
    }
}

// Writes where the area reaches: two calls of the disk.
fn put(disk: &mut MemDisk, area: Area, at: u64, bytes: &[u8]) -> Done {
    match disk.size(area) {
        Ok(size) if at <= size => Done::of(disk.write_at(area, at, bytes)),
        Ok(_) => Done::PastTheEnd,
        Err(Failed) => Done::Failed,
    }
}

// Cuts where the area reaches: two calls of the disk.
fn shorten(disk: &mut MemDisk, area: Area, size: u64) -> Done {
    match disk.size(area) {
        Ok(held) if size <= held => Done::of(disk.cut(area, size)),
        Ok(_) => Done::PastTheEnd,
        Err(Failed) => Done::Failed,
    }
}

/// How it came out.
pub fn said_done(alloc: Global, done: Done) -> Result<String, Fault> {
    let said = match done {
        Done::Done => "done",
        Done::Failed => "failed",
        Done::PastTheEnd => "past the end",
    };
    Ok(format!(in alloc; "  {said}")?)
}

/// How many bytes the area reads from that place on into a room of eight dots, and the whole room then.
pub fn said_read<D: Disk>(
    alloc: Global,
    disk: &mut D,
    area: Area,
    at: u64,
) -> Result<String, Fault> {
    let mut room = *b"........";
    match disk.read(area, at, &mut room) {
        Ok(count) => Ok(format!(in alloc; "  {count} [{}]", said_bytes(alloc, &room)?)?),
        Err(Failed) => Ok(format!(in alloc; "  failed")?),
    }
}

// The bytes that the area reads, at most 16 of them.
fn said_image(alloc: Global, disk: &mut MemDisk, area: Area) -> Result<String, Fault> {
    let mut room = [0u8; 16];
    match disk.read(area, 0, &mut room) {
        Ok(count) => Ok(format!(in alloc; "[{}]", said_bytes(alloc, &room[..count])?)?),
        Err(Failed) => Ok(format!(in alloc; "failed")?),
    }
}

// The bytes as they are printed. One that isn't is written as two hex digits in parentheses.
fn said_bytes(alloc: Global, bytes: &[u8]) -> Result<String, Fault> {
    let mut said = String::new(alloc);
    for byte in bytes {
        if byte.is_ascii_graphic() {
            said.push(char::from(*byte))?;
        } else {
            said.push_str(&format!(in alloc; "({byte:02x})")?)?;
        }
    }
    Ok(said)
}
