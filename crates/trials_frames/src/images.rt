//! Framed bytes, and images that are written piece by piece.
ghost use Rattle.std.specs.Prelude.{◌≡◌, ◌≤◌, [], length, IfOk, OnOk};
ghost use Rattle.std.specs.List.{AllByRecursion};
ghost use Rattle.rec_codec.specs.Changes.{IsChangeSpellable};
ghost use Rattle.rec_codec.specs.Frames.{IsSpellable, body};
ghost use Rattle.rec_codec.specs.Images.{Wrote};
ghost use Rattle.rec_codec.specs.Records.{trail_record};

use crate::case::Case;
use crate::fault::Fault;
use crate::parts::add;
use au_base::Stamp;
use au_catalog::{Change, Record};
use rec_codec::{Frame, ImageWriter, read, write_framed, writes_join};
use std::alloc::Global;

/// What a frame's framed bytes are, if the case is about that.
pub fn tried(alloc: Global, case: &Case<'_>) -> Result<Option<String>, Fault> {
    match case.call {
        "framed" => Ok(Some(framed(alloc, &case.bytes(alloc, 1)?)?)),
        "standing" => {
            let place = u64::from(case.number(1));
            Ok(Some(standing(alloc, place, &case.bytes(alloc, 2)?)?))
        }
        "image" => Ok(Some(image(alloc, &case.bytes(alloc, 1)?)?)),
        _ => Ok(None),
    }
}

fn framed(alloc: Global, body: &[u8]) -> Result<String, Fault> {
    match read(alloc, body)? {
        None => Ok(String::from_str(alloc, "no frame")?),
        Some(frame) => Ok(hex::encode(alloc, &write_framed(alloc, &frame)?)?),
    }
}

// The frame at a place of an area: each part with the place of its first byte.
fn standing(alloc: Global, place: u64, body: &[u8]) -> Result<String, Fault> {
    match read(alloc, body)? {
        None => Ok(String::from_str(alloc, "no frame")?),
        Some(frame) => parted(alloc, place, &write_framed(alloc, &frame)?),
    }
}

fn parted(alloc: Global, place: u64, bytes: &[u8]) -> Result<String, Fault> {
    let end = bytes.len();
    if end < 9 {
        return Ok(String::from_str(alloc, "too short")?);
    }
    let len = hex::encode(alloc, &bytes[..8])?;
    let body = hex::encode(alloc, &bytes[8..end - 1])?;
    let gate = hex::encode(alloc, &bytes[end - 1..])?;
    let first = place.saturating_add(1);
    let second = place.saturating_add(9);
    let third = place.saturating_add(end as u64);
    Ok(format!(in alloc; "{place}: a5, {first}: {len}, {second}: {body}, {third}: {gate}")?)
}

// The image, written piece by piece; where `write_framed` writes other bytes, it says so.
fn image(alloc: Global, body: &[u8]) -> Result<String, Fault> {
    match read(alloc, body)? {
        None => Ok(String::from_str(alloc, "no frame")?),
        Some(frame) => image_again(alloc, &frame),
    }
}

#[tactic(auto, unfolding(rec_codec::specs::Frames::body))]
fn image_again(alloc: Global, frame: &Frame) -> Result<String, Fault>
    requires { IsSpellable frame.now }
{
    match frame {
        Frame::Image {
            last,
            changes,
            records,
        } => {
            let bytes = in_pieces(alloc, *last, changes.as_slice(), records.as_slice())?;
            let mut out = hex::encode(alloc, &bytes)?;
            if write_framed(alloc, frame)?.as_slice() != bytes.as_slice() {
                add(&mut out, "and another spelling")?;
            }
            Ok(out)
        }
        _ => Ok(String::from_str(alloc, "no image")?),
    }
}

fn in_pieces(
    alloc: Global,
    last: Stamp,
    changes: &[Change],
    records: &[Record],
) -> Result<Vec<u8>, Fault>
    requires { body.IsSpellable (last, (changes.now, records.now)) }
{
    let changes_len = count_of(changes.len())?;
    let records_len = count_of(records.len())?;
    let mut writer = ImageWriter::new(alloc, last, changes_len, records_len)?;
    push_changes(&mut writer, changes)?;
    push_records(&mut writer, records)?;
    Ok(writer.finish()?)
}

fn count_of(len: usize) -> Result<u32, Fault>
    ensures { IfOk result (λ count. count ≡ len) }
{
    if len > u32::MAX as usize {
        return Err(Fault::NoCase);
    }
    Ok(len as u32)
}

fn push_changes(writer: &mut ImageWriter, changes: &[Change]) -> Result<(), Fault>
    requires left { length changes.now ≤ writer.old.changes }
    requires spellable { AllByRecursion IsChangeSpellable changes.now }
    ensures { OnOk result (Wrote writer.old writer.new changes.now []) }
{
    writes_join();
    for change in changes {
        writer.push_change(change)?;
    }
    Ok(())
}

fn push_records(writer: &mut ImageWriter, records: &[Record]) -> Result<(), Fault>
    requires none { writer.old.changes ≡ 0 }
    requires left { length records.now ≤ writer.old.records }
    requires spellable { AllByRecursion trail_record.IsSpellable records.now }
    ensures { OnOk result (Wrote writer.old writer.new [] records.now) }
{
    writes_join();
    for entry in records {
        writer.push_record(entry)?;
    }
    Ok(())
}
