//! Stores on a disk.

use crate::asking::push_asks;
use crate::words::{bytes, first_word, push_created, push_why};
use au_entries::Kept;
use au_io::{Area, Disk, Failed, MemClock, MemDisk};
use au_store::{LookFault, OpenFault, Store};
use std::alloc::Global;
use std::mem;
use trials_lines::{Fault, number};

const CLOCK: MemClock = MemClock {
    next: 1_000_000,
    step: 1,
};

/// Adds how making a store ends.
pub fn make(alloc: Global, disk: &mut MemDisk, limit: u32, said: &mut String) -> Result<(), Fault> {
    if limit < 400 || limit > 2_147_483_647 {
        return Err(Fault::NoCase);
    }
    let created = Store::<MemDisk, MemClock>::create(alloc, disk, b"p".as_slice(), limit);
    push_created(created, said)
}

/// Adds what comes of these asks of the store on the disk, or why it isn't opened.
pub fn open(alloc: Global, disk: &mut MemDisk, asks: &str, said: &mut String) -> Result<(), Fault> {
    let empty = MemDisk::new(alloc, &[])?;
    let (left, asked) = open_held(alloc, mem::replace(disk, empty), asks, said);
    *disk = left;
    asked
}

fn open_held(
    alloc: Global,
    disk: MemDisk,
    asks: &str,
    said: &mut String,
) -> (MemDisk, Result<(), Fault>) {
    match Store::open(alloc, disk, CLOCK) {
        Ok(store) => ask(alloc, store, asks, said),
        Err((disk, _clock, why)) => (disk, push_why(why, said)),
    }
}

// Asks the store, and shuts it. Nothing returns early here.
fn ask(
    alloc: Global,
    store: Store<MemDisk, MemClock>,
    asks: &str,
    said: &mut String,
) -> (MemDisk, Result<(), Fault>) {
    let mut store = store;
    let asked = push_asks(alloc, &mut store, asks, said);
    let (disk, _clock) = store.shut();
    (disk, asked)
}

/// Adds this part of what is seen of the store on the disk, or why nothing is.
pub fn look(alloc: Global, disk: &mut MemDisk, part: &str, said: &mut String) -> Result<(), Fault> {
    let empty = MemDisk::new(alloc, &[])?;
    let (left, seen) = Store::<MemDisk, MemClock>::look(alloc, mem::replace(disk, empty));
    *disk = left;
    push_seen(alloc, &seen, part, said)
}

fn push_seen(
    alloc: Global,
    seen: &Result<(Kept, u64), LookFault>,
    part: &str,
    said: &mut String,
) -> Result<(), Fault> {
    match (seen, part) {
        (Ok((kept, used)), "") => push_counts(kept, *used, said),
        (Ok((kept, _)), "users") => push_users(alloc, kept, said),
        (Ok(_), _) => Err(Fault::NoCase),
        (Err(why), _) => push_why(OpenFault::from(*why), said),
    }
}

fn push_counts(kept: &Kept, used: u64, said: &mut String) -> Result<(), Fault> {
    let (instance, records) = (kept.instance, kept.trail.len());
    write!(said, "instance {instance}, {records} records, {used} bytes")?;
    Ok(())
}

// Adds each user with its verifier, and how many grants of system privileges there are.
fn push_users(alloc: Global, kept: &Kept, said: &mut String) -> Result<(), Fault> {
    for (name, verifier) in kept.users.as_slice() {
        let digits = hex::encode(alloc, verifier)?;
        write!(said, "{} {digits}, ", name.as_str())?;
    }
    write!(said, "{} system grants", kept.grants.system.len())?;
    Ok(())
}

/// Adds how long area A is.
pub fn push_size(disk: &mut MemDisk, said: &mut String) -> Result<(), Fault> {
    match disk.size(Area::A) {
        Ok(size) => write!(said, "{size} bytes")?,
        Err(Failed) => said.push_str("disk")?,
    }
    Ok(())
}

/// Writes the bytes over area A at that place.
pub fn write(
    alloc: Global,
    disk: &mut MemDisk,
    part: &str,
    said: &mut String,
) -> Result<(), Fault> {
    let (at, digits) = first_word(part);
    let bytes = bytes(alloc, digits)?;
    match write_over(disk, number(at)?, &bytes) {
        Ok(()) => said.push_str("written")?,
        Err(Failed) => said.push_str("disk")?,
    }
    Ok(())
}

fn write_over(disk: &mut MemDisk, at: u64, bytes: &[u8]) -> Result<(), Failed> {
    if at > disk.size(Area::A)? {
        return Err(Failed);
    }
    disk.write_at(Area::A, at, bytes)
}
