//! Frames that are appended to a journal by hand, also such as no store writes.

use crate::fault::Fault;
use crate::words::bytes_of;
use au_io::{Area, Disk, Failed, MemDisk};
use std::alloc::Global;

/// Appends a frame, whose body the digits spell, to the journal on the disk. It stands where the selected
/// area ended with a closed gate.
pub fn append(alloc: Global, disk: &mut MemDisk, digits: &str) -> Result<(), Fault> {
    let frame = gated(alloc, &bytes_of(alloc, digits)?)?;
    let area = selected(disk)?;
    write_end(disk, area, &frame)
}

// The body behind an open gate and its length, and with a closed gate behind it.
fn gated(alloc: Global, body: &[u8]) -> Result<Vec<u8>, Fault> {
    let mut bytes = Vec::new(alloc);
    bytes.push(0xa5)?;
    bytes.extend_from_slice(&(body.len() as u64).to_be_bytes())?;
    bytes.extend_from_slice(body)?;
    bytes.push(0)?;
    Ok(bytes)
}

// The area that the letter in the disk's head selects.
fn selected(disk: &mut MemDisk) -> Result<Area, Failed> {
    let mut letter = [0u8; 1];
    disk.read(Area::Head, 0, &mut letter)?;
    match letter[0] {
        0x42 => Ok(Area::B),
        _ => Ok(Area::A),
    }
}

/// Writes the bytes over the closed gate at the end of the area, and syncs it.
pub fn write_end(disk: &mut MemDisk, area: Area, bytes: &[u8]) -> Result<(), Fault> {
    match disk.size(area)? {
        0 => Err(Fault::NoCase),
        size => {
            disk.write_at(area, size - 1, bytes)?;
            disk.sync(area)?;
            Ok(())
        }
    }
}
