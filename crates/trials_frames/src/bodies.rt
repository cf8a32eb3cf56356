//! Bodies of frames, changes and records that are read.
ghost use Rattle.rec_codec.specs.Frames.{IsSpellable};

use crate::case::{Case, bytes_of};
use crate::changes::add_change;
use crate::fault::Fault;
use crate::parts::{add_moment, add_number};
use crate::records::add_record;
use au_base::Stamp;
use au_catalog::{Change, Record};
use rec_codec::{Frame, read, write};
use std::alloc::Global;

// An event at 1,000,002 with an enablement of P_ALL and one record, up to the record.
const AUDIT: &str = "02 00000000000f4242 00000001 110005505f414c4c0203000000000001";

// The parts of the record of AUDIT POLICY P_ALL at 1,000,002: the kind, the session, the entry, the
// statement, the stamp, the user, the action, the object's owner and name, the text, the privileges, the
// policies, the fine-grained policy and the code.
const RECORD: [&str; 14] = [
    "01",
    "000000003b9aca01",
    "00000001",
    "00000001",
    "00000000000f4242",
    "0003535953",
    "12",
    "00",
    "010005505f414c4c",
    "0100000012415544495420504f4c49435920505f414c4c",
    "0102",
    "0001000d4f5241244d414e4441544f5259",
    "00",
    "00000000",
];

/// What is read of bytes, if the case is about that.
pub fn tried(alloc: Global, case: &Case<'_>) -> Result<Option<String>, Fault> {
    match case.call {
        "body" => Ok(Some(body(alloc, &case.bytes(alloc, 1)?)?)),
        "change" => Ok(Some(change(alloc, &case.bytes(alloc, 1)?)?)),
        "record" => {
            let bytes = event_with(alloc, case.number(1) as usize, &case.bytes(alloc, 2)?)?;
            Ok(Some(record_of(alloc, &bytes)?))
        }
        "fronts" => Ok(Some(fronts(alloc, &case.bytes(alloc, 1)?)?)),
        _ => Ok(None),
    }
}

/// Whether the bytes are some frame's body, and are written again just so.
pub fn is_frame(alloc: Global, bytes: &[u8]) -> Result<bool, Fault> {
    match read(alloc, bytes)? {
        Some(frame) => is_written_so(alloc, &frame, bytes),
        None => Ok(false),
    }
}

/// An event with this change alone.
pub fn event_of(alloc: Global, change: &[u8]) -> Result<Vec<u8>, Fault> {
    let mut bytes = bytes_of(alloc, "02 0000000000000000 00000001")?;
    bytes.extend_from_slice(change)?;
    bytes.extend_from_slice(&[0; 4])?;
    Ok(bytes)
}

/// The event with the record, of which the part at this place has other bytes.
pub fn event_with(alloc: Global, place: usize, other: &[u8]) -> Result<Vec<u8>, Fault> {
    let mut bytes = bytes_of(alloc, AUDIT)?;
    for (at, part) in RECORD.iter().enumerate() {
        if at == place {
            bytes.extend_from_slice(other)?;
        } else {
            bytes.extend_from_slice(&bytes_of(alloc, part)?)?;
        }
    }
    Ok(bytes)
}

fn is_written_so(alloc: Global, frame: &Frame, bytes: &[u8]) -> Result<bool, Fault>
    requires { IsSpellable frame.now }
{
    Ok(write(alloc, frame)?.as_slice() == bytes)
}

// What is read, behind `another spelling` where it is written with other bytes.
fn begun(alloc: Global, frame: &Frame, bytes: &[u8]) -> Result<String, Fault>
    requires { IsSpellable frame.now }
{
    let same = is_written_so(alloc, frame, bytes)?;
    let front = if same { "" } else { "another spelling:" };
    Ok(String::from_str(alloc, front)?)
}

fn body(alloc: Global, bytes: &[u8]) -> Result<String, Fault> {
    match read(alloc, bytes)? {
        None => Ok(String::from_str(alloc, "no frame")?),
        Some(frame) => {
            let mut out = begun(alloc, &frame, bytes)?;
            add_frame(&mut out, alloc, &frame)?;
            Ok(out)
        }
    }
}

fn change(alloc: Global, bytes: &[u8]) -> Result<String, Fault> {
    let event = event_of(alloc, bytes)?;
    match read(alloc, &event)? {
        None => Ok(String::from_str(alloc, "no frame")?),
        Some(frame) => {
            let mut out = begun(alloc, &frame, &event)?;
            add_changes(&mut out, alloc, changes_of(&frame))?;
            Ok(out)
        }
    }
}

fn record_of(alloc: Global, event: &[u8]) -> Result<String, Fault> {
    match read(alloc, event)? {
        None => Ok(String::from_str(alloc, "no frame")?),
        Some(frame) => {
            let mut out = begun(alloc, &frame, event)?;
            add_records(&mut out, alloc, records_of(&frame))?;
            Ok(out)
        }
    }
}

// The lengths of the fronts that are some frame's body.
fn fronts(alloc: Global, bytes: &[u8]) -> Result<String, Fault> {
    let mut out = String::new(alloc);
    for len in 0..=bytes.len() {
        if read(alloc, &bytes[..len])?.is_some() {
            add_number(&mut out, alloc, len as u64)?;
        }
    }
    Ok(out)
}

fn add_frame(out: &mut String, alloc: Global, frame: &Frame) -> Result<(), Fault> {
    add_front(out, alloc, frame)?;
    add_changes(out, alloc, changes_of(frame))?;
    out.push_str(" /")?;
    add_records(out, alloc, records_of(frame))
}

fn add_front(out: &mut String, alloc: Global, frame: &Frame) -> Result<(), Fault> {
    match frame {
        Frame::Image { last, .. } => add_kind(out, alloc, " Image", *last)?,
        Frame::Event { stamp, .. } => add_kind(out, alloc, " Event", *stamp)?,
        Frame::Purge { stamp, before, .. } => {
            add_kind(out, alloc, " Purge", *stamp)?;
            add_moment(out, alloc, *before)?;
        }
    }
    out.push_str(" /")?;
    Ok(())
}

fn add_kind(out: &mut String, alloc: Global, kind: &str, stamp: Stamp) -> Result<(), Fault> {
    out.push_str(kind)?;
    add_number(out, alloc, stamp.0)
}

fn add_changes(out: &mut String, alloc: Global, changes: &[Change]) -> Result<(), Fault> {
    let mut between = "";
    for change in changes {
        out.push_str(between)?;
        add_change(out, alloc, change)?;
        between = ";";
    }
    Ok(())
}

fn add_records(out: &mut String, alloc: Global, records: &[Record]) -> Result<(), Fault> {
    let mut between = "";
    for entry in records {
        out.push_str(between)?;
        add_record(out, alloc, entry)?;
        between = ";";
    }
    Ok(())
}

/// The changes of a frame.
pub fn changes_of(frame: &Frame) -> &[Change] {
    match frame {
        Frame::Image { changes, .. } => changes.as_slice(),
        Frame::Event { changes, .. } => changes.as_slice(),
        Frame::Purge { changes, .. } => changes.as_slice(),
    }
}

/// The records of a frame.
pub fn records_of(frame: &Frame) -> &[Record] {
    match frame {
        Frame::Image { records, .. } => records.as_slice(),
        Frame::Event { records, .. } => records.as_slice(),
        Frame::Purge { records, .. } => records.as_slice(),
    }
}
