//! Frames of any form, replayed on what is built anew.
ghost use Rattle.std.specs.Prelude.{◌≡◌, ◌↔◌, ◌≤◌, [], false, IfOk, IsTrue, MatchOption, OnErr, OnOk, length};
ghost use Rattle.au_entries.specs.declared.kept.Kept.{Kept as AnyKept};
ghost use Rattle.au_entries.specs.Imaging.{image_changes, nothing};
ghost use Rattle.au_image.specs.Image.{image_of};
ghost use Rattle.au_kept.specs.Anew.{AreChangesOf, CanReplay, GoOn, IsBuilt, Rests, after, untold};
ghost use Rattle.au_kept.specs.Building.{IsFirm, IsQuiet, kept_in};
ghost use Rattle.au_kept.specs.Frames.{IsImage, IsReplayable, after_frame};
ghost use Rattle.au_kept.specs.Keeping.{desk_of};
ghost use Rattle.au_replay.specs.Reading.{conditions};
ghost use Rattle.rec_codec.specs.declared.frame.Frame.{Frame as AnyFrame};
ghost use Rattle.rec_codec.specs.Frames.{IsSpellable, framed, spelled};

use crate::Keeping;
use crate::building::{Building, go_on_all};
use crate::laws::{frames_hold, spellings_are_short};
use crate::parts::Parts;
use crate::settling::settle_trail;
use au_base::{ClientNo, List, Memory, Stamp};
use au_entries::Change;
use au_image::Told;
use au_replay::is_from_last;
use rec_codec::Frame;
use std::alloc::Global;

impl Keeping {
    /// Replays the frame where it goes on from what is kept, whatever its form: what is kept is built
    /// anew, change by change, with the frame's changes behind, and comes in the place of the old
    /// only at the end. An image goes on a blank keeping. Where the frame doesn't go on, or there is
    /// no memory, what is kept is as it was. It takes as long as an image and the frame are long.
    pub(crate) fn replay_anew(&mut self, alloc: Global, frame: Frame) -> Result<bool, Memory>
        requires spellable { IsSpellable frame }
        requires first { IsImage frame → self.old.kept ≡ nothing }
        requires quiet { IsQuiet (desk_of self.old) }
        ensures goes { IfOk result (λ goes. IsTrue goes ↔ IsReplayable conditions self.old.kept frame) }
        ensures after { IfOk result (λ goes. IsTrue goes → self.new.kept ≡ after_frame conditions.tree self.old.kept frame) }
        ensures refused { IfOk result (λ goes. goes ≡ false → self.new.kept ≡ self.old.kept) }
        ensures err { OnErr result (self.new.kept ≡ self.old.kept) }
        ensures quiet { IsQuiet (desk_of self.new) }
    {
        self.holds_together();
        frames_hold();
        spellings_are_short();
        match frame {
            Frame::Image {
                last,
                changes,
                records,
            } => self.replay_parts(
                alloc,
                Parts {
                    image: true,
                    stamp: last,
                    purge: None,
                    changes,
                    records,
                },
            ),
            Frame::Event {
                stamp,
                changes,
                records,
            } => self.replay_parts(
                alloc,
                Parts {
                    image: false,
                    stamp,
                    purge: None,
                    changes,
                    records,
                },
            ),
            Frame::Purge {
                stamp,
                before,
                changes,
                records,
            } => self.replay_parts(
                alloc,
                Parts {
                    image: false,
                    stamp,
                    purge: Some(before),
                    changes,
                    records,
                },
            ),
        }
    }

    fn replay_parts(&mut self, alloc: Global, parts: Parts) -> Result<bool, Memory>
        requires can { CanReplay parts self.old.kept }
        requires quiet { IsQuiet (desk_of self.old) }
        ensures goes { IfOk result (λ goes. IsTrue goes ↔ GoOn parts self.old.kept) }
        ensures after { IfOk result (λ goes. IsTrue goes → self.new.kept ≡ after parts self.old.kept) }
        ensures refused { IfOk result (λ goes. goes ≡ false → self.new.kept ≡ self.old.kept) }
        ensures err { OnErr result (self.new.kept ≡ self.old.kept) }
        ensures quiet { IsQuiet (desk_of self.new) }
    {
        if !is_from_last(self.last, parts.stamp) {
            return Ok(false);
        }
        self.reserve_records(parts.records.len())?;
        match self.built(alloc, &parts)? {
            Some(building) => {
                self.take(building, parts);
                Ok(true)
            }
            None => Ok(false),
        }
    }

    // Makes room for so many more records.
    fn reserve_records(&mut self, more: usize) -> Result<(), Memory>
        ensures ok { OnOk result (more ≤ self.new.room) }
        ensures kept { self.new.kept ≡ self.old.kept }
        ensures logs { self.new.logs ≡ self.old.logs }
    {
        self.trail.reserve(more)?;
        Ok(())
    }

    // Puts what is built in the place of what was kept, with the trail that the frame leaves.
    fn take(&mut self, building: Building, parts: Parts)
        requires room { length parts.records ≤ self.old.room }
        requires stamped { self.old.kept.last.0 ≤ parts.stamp.0 }
        requires can { CanReplay parts self.old.kept }
        requires built { IsBuilt parts self.old.kept building }
        ensures kept { self.new.kept ≡ after parts self.old.kept }
        ensures quiet { IsQuiet (desk_of self.new) }
    {
        au_txn::desks_stay_keyed();
        au_txn::rows_are_triples();
        au_txn::rows_stand_by_tables();
        let Parts {
            image: _,
            stamp,
            purge,
            changes: _,
            records,
        } = parts;
        let Building {
            catalog,
            grants,
            desk,
            instance,
        } = building;
        settle_trail(&mut self.trail, purge, records.into_vec());
        self.catalog = catalog;
        self.grants = grants.into_grants();
        self.desk = desk;
        self.last = stamp;
        self.instance = instance;
    }

    /// What the changes leave, built anew. `None` exactly where one of them doesn't go on, or SYS is no
    /// user then, or not all is whole.
    fn built(&self, alloc: Global, parts: &Parts) -> Result<Option<Building>, Memory>
        requires can { CanReplay parts.now self.now.kept }
        ensures { IfOk result (λ found. MatchOption found (¬ Rests parts.now self.now.kept) (IsBuilt parts.now self.now.kept)) }
    {
        self.holds_together();
        au_replay::sights_suffice();
        au_replay::touched_parts_suffice();
        let mut building = self.copied(alloc, parts.image)?;
        let changes = parts.changes.as_slice();
        if !go_on_all(alloc, &mut building, parts.image, changes)? {
            return Ok(None);
        }
        if !building.is_whole(alloc, changes)? {
            return Ok(None);
        }
        Ok(Some(building))
    }

    /// What is kept, built anew from its image, or nothing where an image is to be replayed.
    fn copied(&self, alloc: Global, blank: bool) -> Result<Building, Memory>
        requires blank { IsTrue blank → self.now.kept ≡ nothing }
        ensures firm { IfOk result IsFirm }
        ensures kept { IfOk result (λ building. kept_in building ≡ untold self.now.kept) }
    {
        if blank {
            return Building::new(alloc);
        }
        self.copy(alloc)
    }

    fn copy(&self, alloc: Global) -> Result<Building, Memory>
        ensures firm { IfOk result IsFirm }
        ensures kept { IfOk result (λ building. kept_in building ≡ untold self.now.kept) }
    {
        self.holds_together();
        au_entries::images_come_back();
        spellings_are_short();
        let changes = self.changes_of_all(alloc)?;
        let mut building = Building::new(alloc)?;
        go_on_all(alloc, &mut building, true, changes.as_slice())?;
        Ok(building)
    }

    /// All that is kept, as changes of nothing: those of its image without the trail.
    fn changes_of_all(&self, alloc: Global) -> Result<List<Change>, Memory>
        ensures { IfOk result (λ changes. changes ≡ image_changes self.now.kept) }
    {
        let bytes = au_image::image(
            alloc,
            &self.catalog,
            &self.grants,
            &self.desk,
            ClientNo(0),
            &Told::all(&[], Stamp(0)),
            self.instance,
        )?;
        changes_in(alloc, bytes.as_slice())
    }
}

/// The changes of an image that stands framed in the bytes.
fn changes_in(alloc: Global, bytes: &[u8]) -> Result<List<Change>, Memory>
    requires framed { (kept : AnyKept) × IsSpellable (image_of kept) × (bytes.now ≡ framed (image_of kept)) }
    ensures { (kept : AnyKept) → IsSpellable (image_of kept) → bytes.now ≡ framed (image_of kept) → IfOk result (λ changes. changes ≡ image_changes kept) }
{
    rec_codec::one_reading();
    let frame = rec_codec::read(alloc, body_of(bytes))?;
    image_changes_in(frame)
}

// The changes of the frame, which is an image.
fn image_changes_in(frame: Option<Frame>) -> Result<List<Change>, Memory>
    ensures { IfOk result (AreChangesOf frame) }
{
    match frame {
        Some(Frame::Image { changes, .. }) => Ok(changes),
        _ => Err(Memory),
    }
}

// The body of the frame: the bytes behind its length and before its gate.
fn body_of(bytes: &[u8]) -> &[u8]
    requires { 9 ≤ length bytes.now }
    ensures { (frame : AnyFrame) → bytes.entry.now ≡ framed frame → result.now ≡ spelled frame }
{
    &bytes[8..bytes.len() - 1]
}
