//! Tries the bodies of frames: each line of standard input names a case and its bytes, as hexadecimal
//! digits, and is written again with what came.
//!
//! - `body|CASE|BYTES`: what is read of the bytes as a body: the frame, or `no frame`. Where it is written
//!   with other bytes than these, `another spelling` stands in front.
//! - `change|CASE|BYTES`: the same of an event with this one change: what comes is the change
//! - `record|CASE|PART|BYTES`: the same of an event with one record, of which one part has other bytes: what
//!   comes is the record
//! - `fronts|CASE|BYTES`: how many bytes the fronts of the bytes have that are some frame's
//! - `name|LENGTH`, `text|LENGTH`, `policies|COUNT`, `columns|COUNT`: whether a role's name, a record's text,
//!   the policies of a record and the columns of a table may be so many
//! - `framed|CASE|BYTES`: the framed bytes of the frame whose body this is
//! - `standing|CASE|PLACE|BYTES`: the bytes of an area from this place on, where the frame stands there: the
//!   open gate, the length, the body and the next gate, each with its place
//! - `image|CASE|BYTES`: the framed bytes of the image whose body this is, written piece by piece
#![tactic(auto)]

mod bodies;
mod case;
mod changes;
mod fault;
mod images;
mod parts;
mod records;
mod sizes;

use case::Case;
use fault::Fault;
use std::alloc::Global;
use std::io;

// What comes of a line.
fn answer(alloc: Global, line: &str) -> Result<String, Fault> {
    let case = Case::read(alloc, line)?;
    if let Some(text) = bodies::tried(alloc, &case)? {
        return Ok(text);
    }
    if let Some(text) = images::tried(alloc, &case)? {
        return Ok(text);
    }
    match sizes::tried(alloc, &case)? {
        Some(text) => Ok(text),
        None => Err(Fault::NoCase),
    }
}

fn main(rt: HostRuntime) -> io::Result<()> {
    for line in rt.lines(rt.alloc()) {
        let line = line?;
        if line.is_empty() || line.starts_with('#') {
            println!(rt; "{line}")?;
            continue;
        }
        match answer(rt.alloc(), line.as_str()) {
            Ok(text) => println!(rt; "{line} = {}", text.trim_start())?,
            Err(Fault::Memory) => println!(rt; "{line}: out of memory")?,
            Err(Fault::NoCase) => println!(rt; "{line}: no such case")?,
        }
    }
    Ok(())
}
