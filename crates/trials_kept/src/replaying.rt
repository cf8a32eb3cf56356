//! Lines that replay frames.
ghost use Rattle.std.specs.Prelude.{◌≡◌, ◌↔◌, [], IsTrue};
ghost use Rattle.au_base.specs.declared.numbers.ClientNo.{ClientNo as Client};
ghost use Rattle.au_entries.specs.Imaging.{nothing};
ghost use Rattle.au_kept.specs.Frames.{IsImage};
ghost use Rattle.au_txn.specs.Logs.{changes_of};
ghost use Rattle.rec_codec.specs.Frames.{IsSpellable};

use crate::copying::comes_back;
use crate::frames::body_of;
use au_kept::Keeping;
use rec_codec::{Frame, read};
use std::alloc::Global;
use trials_lines::Fault;

/// Replays the image of the line where nothing is kept, and says whether it goes on.
pub fn image(alloc: Global, keeping: &mut Keeping, line: &str) -> Result<&'static str, Fault>
    requires alone { (client : Client) → changes_of client keeping.old.logs ≡ [] }
    ensures alone { (client : Client) → changes_of client keeping.new.logs ≡ [] }
{
    let body = body_of(alloc, 1, line)?;
    let mut blank = Keeping::blank(alloc)?;
    let said = first(alloc, &mut blank, &body);
    *keeping = blank;
    said
}

fn first(alloc: Global, keeping: &mut Keeping, body: &[u8]) -> Result<&'static str, Fault>
    requires blank { keeping.old.kept ≡ nothing }
    requires alone { (client : Client) → changes_of client keeping.old.logs ≡ [] }
    ensures alone { (client : Client) → changes_of client keeping.new.logs ≡ [] }
{
    match read(alloc, body)? {
        None => Ok("no frame"),
        Some(frame) => begun(alloc, keeping, frame),
    }
}

fn begun(alloc: Global, keeping: &mut Keeping, frame: Frame) -> Result<&'static str, Fault>
    requires spelled { IsSpellable frame }
    requires blank { keeping.old.kept ≡ nothing }
    requires alone { (client : Client) → changes_of client keeping.old.logs ≡ [] }
    ensures alone { (client : Client) → changes_of client keeping.new.logs ≡ [] }
{
    if keeping.replay(alloc, frame)? {
        said_back(alloc, keeping)
    } else {
        Ok("no")
    }
}

/// Replays the event or the purge of the line, by its kind, and says whether it goes on.
pub fn next(
    alloc: Global,
    keeping: &mut Keeping,
    kind: u8,
    line: &str,
) -> Result<&'static str, Fault>
    requires alone { (client : Client) → changes_of client keeping.old.logs ≡ [] }
    ensures alone { (client : Client) → changes_of client keeping.new.logs ≡ [] }
{
    let body = body_of(alloc, kind, line)?;
    let before = keeping.image(alloc)?;
    match read(alloc, &body)? {
        None => Ok("no frame"),
        Some(frame) => replayed(alloc, keeping, &before, frame),
    }
}

// Replays the frame, which is no image. Where it goes on, the image of what is kept comes back; where
// it doesn't, it is as it was before.
fn replayed(
    alloc: Global,
    keeping: &mut Keeping,
    before: &[u8],
    frame: Frame,
) -> Result<&'static str, Fault>
    requires spelled { IsSpellable frame }
    requires alone { (client : Client) → changes_of client keeping.old.logs ≡ [] }
    ensures alone { (client : Client) → changes_of client keeping.new.logs ≡ [] }
{
    if is_image(&frame) {
        return Err(Fault::NoCase);
    }
    if keeping.replay(alloc, frame)? {
        said_back(alloc, keeping)
    } else {
        said_same(alloc, keeping, before)
    }
}

fn is_image(frame: &Frame) -> bool
    ensures { IsTrue result ↔ IsImage frame.now }
{
    match frame {
        Frame::Image { .. } => true,
        Frame::Event { .. } => false,
        Frame::Purge { .. } => false,
    }
}

fn said_back(alloc: Global, keeping: &Keeping) -> Result<&'static str, Fault> {
    let image = keeping.image(alloc)?;
    if comes_back(alloc, &image)? {
        Ok("yes")
    } else {
        Ok("yes, and its image leads elsewhere")
    }
}

fn said_same(alloc: Global, keeping: &Keeping, before: &[u8]) -> Result<&'static str, Fault> {
    let after = keeping.image(alloc)?;
    if after.as_slice() == before {
        Ok("no")
    } else {
        Ok("no, and what is kept is another")
    }
}
