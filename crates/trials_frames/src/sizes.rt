//! How many bytes a name or a text may have, and how many names or columns a list.

use crate::bodies::{event_of, event_with, is_frame};
use crate::case::Case;
use crate::fault::Fault;
use std::alloc::Global;

/// Whether so many are some frame's, if the case is about that.
pub fn tried(alloc: Global, case: &Case<'_>) -> Result<Option<String>, Fault> {
    let event = match case.call {
        "name" => named(alloc, case.short(0))?,
        "text" => with_text(alloc, case.number(0))?,
        "policies" => with_policies(alloc, case.short(0))?,
        "columns" => with_columns(alloc, case.byte(0))?,
        _ => return Ok(None),
    };
    let word = if is_frame(alloc, &event)? {
        "a frame"
    } else {
        "no frame"
    };
    Ok(Some(String::from_str(alloc, word)?))
}

// A role whose name has so many bytes.
fn named(alloc: Global, len: u16) -> Result<Vec<u8>, Fault> {
    let mut change = Vec::new(alloc);
    change.push(3)?;
    change.extend_from_slice(&len.to_be_bytes())?;
    push_many(&mut change, u32::from(len))?;
    event_of(alloc, &change)
}

// A record whose text has so many bytes.
fn with_text(alloc: Global, len: u32) -> Result<Vec<u8>, Fault> {
    let mut text = Vec::new(alloc);
    text.push(1)?;
    text.extend_from_slice(&len.to_be_bytes())?;
    push_many(&mut text, len)?;
    event_with(alloc, 9, &text)
}

// A record that names so many policies.
fn with_policies(alloc: Global, count: u16) -> Result<Vec<u8>, Fault> {
    let mut names = Vec::new(alloc);
    names.extend_from_slice(&count.to_be_bytes())?;
    for number in 0..count {
        names.extend_from_slice(&[0, 3])?;
        for digit in [number / 4_096, number / 64 % 64, number % 64] {
            names.push(b'0' + (digit % 64) as u8)?;
        }
    }
    event_with(alloc, 11, &names)
}

// A table with so many columns, up to 255.
fn with_columns(alloc: Global, count: u8) -> Result<Vec<u8>, Fault> {
    let mut change = Vec::new(alloc);
    change.extend_from_slice(&[11, 0, 1, b'B', 0, 1, b'T', count])?;
    for number in 0..count {
        let (high, low) = (number / 16, number % 16);
        change.extend_from_slice(&[0, 2, b'A' + high, b'A' + low, 1, 0, 18, 0])?;
    }
    change.push(0)?;
    event_of(alloc, &change)
}

fn push_many(bytes: &mut Vec<u8>, len: u32) -> Result<(), Fault> {
    for _ in 0..len {
        bytes.push(b'A')?;
    }
    Ok(())
}
