//! The frame that a step writes.
ghost use Rattle.std.specs.Prelude.{◌≡◌, IfOk, Option};
ghost use Rattle.au_kept.specs.Quick.{changes_in};
ghost use Rattle.rec_codec.specs.declared.frame.Frame.{Frame as AnyFrame};
ghost use Rattle.rec_codec.specs.Frames.{IsSpellable, framed, spelled};
ghost use Rattle.au_step.specs.Framing.{IsText, IsWritable, event_of, frame_by, framed_option, records_in};
ghost use Rattle.au_engine.specs.Prepared.{logged_by};

use crate::outcome::Outcome;
use crate::trail::is_nothing;
use au_base::{Ask, List, Memory, Stamp};
use au_entries::{Change, Record};
use rec_codec::{Frame, write_framed};
use std::alloc::Global;

// A frame's bytes, beside what was written.
#[derive(Drop)]
struct FrameBytes {
    bytes: Vec<u8>,
    changes: List<Change>,
    records: List<Record>,
}

/// The step with the framed bytes of the event, or of the purge, at this stamp, where it leaves
/// something to be kept.
pub(crate) fn with_frame(alloc: Global, stamp: Stamp, outcome: Outcome) -> Result<Outcome, Memory>
    requires { IsWritable (event_of stamp.0 (logged_by outcome)) }
    ensures { IfOk result (λ made. made ≡ record outcome { framed = framed_option (event_of stamp.0 (logged_by outcome)) }) }
{
    if is_nothing(&outcome.changes, &outcome.purge, &outcome.records) {
        return Ok(without_frame(outcome));
    }
    with_bytes(alloc, stamp, outcome)
}

fn with_bytes(alloc: Global, stamp: Stamp, outcome: Outcome) -> Result<Outcome, Memory>
    requires { IsSpellable (frame_by outcome.purge stamp outcome.changes outcome.records) }
    ensures { IfOk result (λ made. made ≡ record outcome { framed = Option.Some (framed (frame_by outcome.purge stamp outcome.changes outcome.records)) }) }
{
    let Outcome {
        reply,
        sessions,
        results,
        finals,
        changes,
        purge,
        records,
        last,
        framed: _,
    } = outcome;
    let written = write_frame(alloc, stamp, purge, changes, records)?;
    let FrameBytes {
        bytes,
        changes,
        records,
    } = written;
    Ok(Outcome {
        reply,
        sessions,
        results,
        finals,
        changes,
        purge,
        records,
        last,
        framed: Some(List::from_vec(bytes)),
    })
}

fn without_frame(outcome: Outcome) -> Outcome
    ensures { result ≡ record outcome { framed = Option.None } }
{
    Outcome {
        framed: None,
        ..outcome
    }
}

fn write_frame(
    alloc: Global,
    stamp: Stamp,
    purge: Option<Option<Stamp>>,
    changes: List<Change>,
    records: List<Record>,
) -> Result<FrameBytes, Memory>
    requires { IsSpellable (frame_by purge stamp changes records) }
    ensures bytes { IfOk result (λ written. written.bytes.items ≡ framed (frame_by purge stamp changes records)) }
    ensures changes { IfOk result (λ written. written.changes ≡ changes) }
    ensures records { IfOk result (λ written. written.records ≡ records) }
{
    let frame = frame_by(purge, stamp, changes, records);
    let bytes = write_framed(alloc, &frame)?;
    let (changes, records) = parts_of(frame);
    Ok(FrameBytes {
        bytes,
        changes,
        records,
    })
}

// An event or, where it purges, a purge.
fn frame_by(
    purge: Option<Option<Stamp>>,
    stamp: Stamp,
    changes: List<Change>,
    records: List<Record>,
) -> Frame
    ensures frame { result ≡ frame_by purge stamp changes records }
    ensures changes { changes_in result ≡ changes }
    ensures records { records_in result ≡ records }
{
    match purge {
        None => Frame::Event {
            stamp,
            changes,
            records,
        },
        Some(before) => Frame::Purge {
            stamp,
            before,
            changes,
            records,
        },
    }
}

fn parts_of(frame: Frame) -> (List<Change>, List<Record>)
    ensures { result ≡ (changes_in frame, records_in frame) }
{
    match frame {
        Frame::Image {
            changes,
            records,
            ..
        } => (changes, records),
        Frame::Event {
            changes,
            records,
            ..
        } => (changes, records),
        Frame::Purge {
            changes,
            records,
            ..
        } => (changes, records),
    }
}

/// What stands between the length and the gate of framed bytes.
pub fn body_in(bytes: &[u8]) -> &[u8]
    ensures { (frame : AnyFrame) → bytes.now ≡ framed frame → result.now ≡ spelled frame }
{
    let end = bytes.len().saturating_sub(1);
    bytes[..end].get(8..).unwrap_or(&[])
}

/// The texts of an ask are UTF-8. It does nothing, and states the law for its callers.
pub fn asks_are_text(ask: &Ask)
    ensures { IsText ask.now }
{
    match ask {
        Ask::Sql(text) => {
            let _bytes = text.as_bytes();
        }
        Ask::Logon { user, password } => {
            let _user = user.as_bytes();
            let _password = password.as_bytes();
        }
        Ask::Local | Ask::Logoff => {}
    }
}
