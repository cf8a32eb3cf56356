//! The bodies of frames.
ghost use Rattle.std.specs.Prelude.{◌≡◌, ◌++◌, ℕ, List, OnOk, IfOk};
ghost use Rattle.rec_parts.specs.Given.{Gives};
ghost use Rattle.rec_codec.specs.declared.frame.Frame as declared;
ghost use Rattle.rec_codec.specs.declared.frame.Frame.TheVariants as kinds;
ghost use Rattle.rec_parts.specs.descent.Reading.{made_first, whole};
ghost use Rattle.rec_codec.specs.Frames.{IsFrame, IsSpellable, Reads, body, framed, purge, spelled};
ghost use Rattle.rec_codec.specs.descent.Frames.{body_first, frame_behind, frame_first, purge_first};

use crate::frame::Frame;
use crate::listed::{read_list, write_list};
use au_base::{List as Sequence, Memory, Stamp};
use au_entries::{Change, Record};
use rec_parts::{ReadError, Spelled, parts_are_exact, read_u8, write_u8, write_u64};
use std::alloc::Global;

/// The body of the frame.
pub fn write(alloc: Global, frame: &Frame) -> Result<Vec<u8>, Memory>
    requires { IsSpellable frame.now }
    ensures { IfOk result (λ body. body.items ≡ spelled frame.now) }
{
    let mut body = Vec::new(alloc);
    write_frame(frame, &mut body)?;
    Ok(body)
}

/// The frame as the journal takes it: the length of the body in eight bytes, the body, and the closed
/// gate behind it.
pub fn write_framed(alloc: Global, frame: &Frame) -> Result<Vec<u8>, Memory>
    requires { IsSpellable frame.now }
    ensures { IfOk result (λ bytes. bytes.items ≡ framed frame.now) }
{
    let body = write(alloc, frame)?;
    let mut bytes = Vec::new(alloc);
    write_u64(&mut bytes, body.len() as u64)?;
    bytes.extend_from_slice(&body)?;
    write_u8(&mut bytes, 0)?;
    Ok(bytes)
}

/// The frame whose body these bytes are. `None` where they are the body of none. It takes memory for
/// what it has read, and never for a count that it has only seen.
pub fn read(alloc: Global, body: &[u8]) -> Result<Option<Frame>, Memory>
    ensures { IfOk result (Reads body.now) }
{
    parts_are_exact();
    match read_whole(alloc, body) {
        Ok(frame) => Ok(Some(frame)),
        Err(ReadError::NoFrame) => Ok(None),
        Err(ReadError::Memory) => Err(Memory),
    }
}

/// No body begins another: where two frames' bodies stand at the front of the same bytes, they are one
/// frame's, and the same bytes stand behind them.
pub fn one_front()
    ensures { (a b : declared.Frame) (x y : List ℕ) → IsSpellable a → IsSpellable b → spelled a ++ x ≡ spelled b ++ y → (a ≡ b) × (x ≡ y) }
{
    parts_are_exact();
}

/// The body that was written is that of one frame: what is read of it is the frame.
pub fn one_reading()
    ensures { (bytes : List ℕ) (a b : declared.Frame) → IsFrame bytes a → IsFrame bytes b → a ≡ b }
{
    parts_are_exact();
}

fn read_whole(alloc: Global, body: &[u8]) -> Result<Frame, ReadError>
    ensures { Gives (λ frame. frame) result (whole frame_first body.now) }
{
    let (frame, rest) = read_frame(alloc, body)?;
    if !rest.is_empty() {
        return Err(ReadError::NoFrame);
    }
    Ok(frame)
}

fn write_frame(frame: &Frame, out: &mut Vec<u8>) -> Result<(), Memory>
    requires { IsSpellable frame.now }
    ensures { OnOk result (out.new.items ≡ out.old.items ++ spelled frame.now) }
{
    match frame {
        Frame::Image {
            last,
            changes,
            records,
        } => {
            write_u8(out, 1)?;
            write_body(*last, changes, records, out)
        }
        Frame::Event {
            stamp,
            changes,
            records,
        } => {
            write_u8(out, 2)?;
            write_body(*stamp, changes, records, out)
        }
        Frame::Purge {
            stamp,
            before,
            changes,
            records,
        } => {
            write_u8(out, 3)?;
            write_purge(*stamp, before, changes, records, out)
        }
    }
}

#[tactic(auto, unfolding(crate::specs::Frames::body))]
fn write_body(
    stamp: Stamp,
    changes: &Sequence<Change>,
    records: &Sequence<Record>,
    out: &mut Vec<u8>,
) -> Result<(), Memory>
    requires { body.IsSpellable (stamp, (changes.now, records.now)) }
    ensures { OnOk result (out.new.items ≡ out.old.items ++ body.spelled (stamp, (changes.now, records.now))) }
{
    stamp.write(out)?;
    write_list(changes, out)?;
    write_list(records, out)
}

#[tactic(auto, unfolding(crate::specs::Frames::purge))]
fn write_purge(
    stamp: Stamp,
    before: &Option<Stamp>,
    changes: &Sequence<Change>,
    records: &Sequence<Record>,
    out: &mut Vec<u8>,
) -> Result<(), Memory>
    requires { purge.IsSpellable (stamp, (before.now, (changes.now, records.now))) }
    ensures { OnOk result (out.new.items ≡ out.old.items ++ purge.spelled (stamp, (before.now, (changes.now, records.now)))) }
{
    stamp.write(out)?;
    before.write(out)?;
    write_list(changes, out)?;
    write_list(records, out)
}

#[tactic(auto, unfolding(crate::specs::descent::Frames::frame_first))]
fn read_frame(alloc: Global, bytes: &[u8]) -> Result<(Frame, &[u8]), ReadError>
    ensures { Gives (λ x. (x.0, x.1.now)) result (frame_first bytes.now) }
{
    let (kind, rest) = read_u8(bytes)?;
    read_behind_kind(alloc, kind, rest)
}

#[tactic(auto, unfolding(crate::specs::descent::Frames::frame_behind))]
fn read_behind_kind(alloc: Global, kind: u8, bytes: &[u8]) -> Result<(Frame, &[u8]), ReadError>
    ensures { Gives (λ x. (x.0, x.1.now)) result (frame_behind kind bytes.now) }
{
    match kind {
        1 => read_image(alloc, bytes),
        2 => read_event(alloc, bytes),
        3 => read_purge(alloc, bytes),
        _ => Err(ReadError::NoFrame),
    }
}

#[tactic(auto, unfolding(crate::specs::descent::Frames::body_first))]
fn read_image(alloc: Global, bytes: &[u8]) -> Result<(Frame, &[u8]), ReadError>
    ensures { Gives (λ x. (x.0, x.1.now)) result (made_first body_first (λ x. kinds.Image x.0 x.1.0 x.1.1) bytes.now) }
{
    let (last, rest) = Stamp::read(alloc, bytes)?;
    let (changes, rest) = read_list::<Change>(alloc, rest)?;
    let (records, rest) = read_list::<Record>(alloc, rest)?;
    let image = Frame::Image {
        last,
        changes,
        records,
    };
    Ok((image, rest))
}

#[tactic(auto, unfolding(crate::specs::descent::Frames::body_first))]
fn read_event(alloc: Global, bytes: &[u8]) -> Result<(Frame, &[u8]), ReadError>
    ensures { Gives (λ x. (x.0, x.1.now)) result (made_first body_first (λ x. kinds.Event x.0 x.1.0 x.1.1) bytes.now) }
{
    let (stamp, rest) = Stamp::read(alloc, bytes)?;
    let (changes, rest) = read_list::<Change>(alloc, rest)?;
    let (records, rest) = read_list::<Record>(alloc, rest)?;
    let event = Frame::Event {
        stamp,
        changes,
        records,
    };
    Ok((event, rest))
}

#[tactic(auto, unfolding(crate::specs::descent::Frames::purge_first))]
fn read_purge(alloc: Global, bytes: &[u8]) -> Result<(Frame, &[u8]), ReadError>
    ensures { Gives (λ x. (x.0, x.1.now)) result (made_first purge_first (λ x. kinds.Purge x.0 x.1.0 x.1.1.0 x.1.1.1) bytes.now) }
{
    let (stamp, rest) = Stamp::read(alloc, bytes)?;
    let (before, rest) = Option::<Stamp>::read(alloc, rest)?;
    let (changes, rest) = read_list::<Change>(alloc, rest)?;
    let (records, rest) = read_list::<Record>(alloc, rest)?;
    let made = Frame::Purge {
        stamp,
        before,
        changes,
        records,
    };
    Ok((made, rest))
}
