//! Frames whose changes are all of rows, replayed in place.
ghost use Rattle.std.specs.Prelude.{◌≡◌, ◌↔◌, ◌≤◌, [], IfOk, IsTrue, OnErr, false, length};
ghost use Rattle.std.specs.List.{AllByRecursion};
ghost use Rattle.au_base.specs.Limits.{LAST_MOMENT};
ghost use Rattle.au_base.specs.declared.numbers.ClientNo.{ClientNo as Client};
ghost use Rattle.au_base.specs.BuiltIn.{sys};
ghost use Rattle.au_entries.specs.Changing.{changed_all};
ghost use Rattle.au_entries.specs.Frames.{PartsGoOn, after_parts};
ghost use Rattle.au_entries.specs.Lawful.{IsWhole};
ghost use Rattle.au_entries.specs.Replaying.{AllGoOn, has_user};
ghost use Rattle.au_kept.specs.Frames.{IsReplayable, after_frame};
ghost use Rattle.au_kept.specs.Quick.{IsOfRows};
ghost use Rattle.au_kept.specs.Staging.{IsOfRow};
ghost use Rattle.au_replay.specs.Reading.{conditions};
ghost use Rattle.au_txn.specs.Logs.{changes_of};
ghost use Rattle.rec_codec.specs.Changes.{IsChangeSpellable};
ghost use Rattle.rec_codec.specs.Frames.{IsSpellable};
ghost use Rattle.rec_codec.specs.Records.{trail_record};

use crate::Keeping;
use crate::laying_rows::{replay_on, sight_of};
use crate::settling::settle_trail;
use au_base::{List, Memory, Stamp};
use au_entries::{Change, Record};
use au_replay::{has_sys, is_from_last};
use rec_codec::Frame;
use std::alloc::Global;

/// Whether the frame is no image, and each of its changes is of a row: then it is replayed in place.
pub(crate) fn is_of_rows(frame: &Frame) -> bool
    ensures { IsTrue result ↔ IsOfRows frame.now }
{
    match frame {
        Frame::Image { .. } => false,
        Frame::Event { changes, .. } => are_of_rows(changes.as_slice()),
        Frame::Purge { changes, .. } => are_of_rows(changes.as_slice()),
    }
}

fn are_of_rows(changes: &[Change]) -> bool
    ensures { IsTrue result ↔ AllByRecursion IsOfRow changes.now }
{
    for change in changes {
        if !is_of_row(change) {
            return false;
        }
    }
    true
}

fn is_of_row(change: &Change) -> bool
    ensures { IsTrue result ↔ IsOfRow change.now }
{
    match change {
        Change::Put(..) => true,
        Change::Gone(..) => true,
        _ => false,
    }
}

impl Keeping {
    /// Replays the frame, whose changes are all of rows, where it goes on from what is kept. Nothing is
    /// changed where it doesn't, or where there is no memory. Rows are laid in place: what that takes
    /// goes with the frame, and not with what is kept. No client has changes.
    pub(crate) fn replay_rows(&mut self, alloc: Global, frame: Frame) -> Result<bool, Memory>
        requires rows { IsOfRows frame }
        requires spelled { IsSpellable frame }
        requires alone { (client : Client) → changes_of client self.old.logs ≡ [] }
        ensures goes { IfOk result (λ goes. IsTrue goes ↔ IsReplayable conditions self.old.kept frame) }
        ensures after { IfOk result (λ goes. IsTrue goes → self.new.kept ≡ after_frame conditions.tree self.old.kept frame) }
        ensures refused { IfOk result (λ goes. goes ≡ false → self.new.kept ≡ self.old.kept) }
        ensures err { OnErr result (self.new.kept ≡ self.old.kept) }
        ensures alone { (client : Client) → changes_of client self.new.logs ≡ [] }
    {
        match frame {
            Frame::Image { .. } => Ok(false),
            Frame::Event {
                stamp,
                changes,
                records,
            } => self.replay_laid(alloc, stamp, None, changes, records),
            Frame::Purge {
                stamp,
                before,
                changes,
                records,
            } => self.replay_laid(alloc, stamp, Some(before), changes, records),
        }
    }

    // Replays a frame with these parts.
    fn replay_laid(
        &mut self,
        alloc: Global,
        stamp: Stamp,
        purge: Option<Option<Stamp>>,
        changes: List<Change>,
        records: List<Record>,
    ) -> Result<bool, Memory>
        requires rows { AllByRecursion IsOfRow changes }
        requires moment { stamp.0 ≤ LAST_MOMENT }
        requires spelled { AllByRecursion IsChangeSpellable changes }
        requires told { AllByRecursion trail_record.IsSpellable records }
        requires alone { (client : Client) → changes_of client self.old.logs ≡ [] }
        ensures goes { IfOk result (λ goes. IsTrue goes ↔ PartsGoOn conditions false self.old.kept stamp changes) }
        ensures after { IfOk result (λ goes. IsTrue goes → self.new.kept ≡ after_parts conditions.tree stamp purge changes records self.old.kept) }
        ensures refused { IfOk result (λ goes. goes ≡ false → self.new.kept ≡ self.old.kept) }
        ensures err { OnErr result (self.new.kept ≡ self.old.kept) }
        ensures alone { (client : Client) → changes_of client self.new.logs ≡ [] }
    {
        if !self.may_follow(stamp) {
            return Ok(false);
        }
        self.make_room(changes.len(), records.len())?;
        if !self.lay_rows(alloc, changes.as_slice())? {
            return Ok(false);
        }
        self.end_frame(stamp, purge, records);
        Ok(true)
    }

    // Whether a frame with this stamp may follow: it isn't under the last one, and SYS is a user.
    pub(crate) fn may_follow(&self, stamp: Stamp) -> bool
        ensures { IsTrue result ↔ ((self.now.kept.last.0 ≤ stamp.0) × IsTrue (has_user self.now.kept sys)) }
    {
        au_replay::sights_suffice();
        let sight = sight_of(&self.catalog, &self.grants, &self.desk, self.instance);
        is_from_last(self.last, stamp) && has_sys(&sight)
    }

    // Makes the changes, which are of rows, where each goes on after those before it and all of them
    // leave what is kept whole.
    fn lay_rows(&mut self, alloc: Global, changes: &[Change]) -> Result<bool, Memory>
        requires rows { AllByRecursion IsOfRow changes.now }
        requires spelled { AllByRecursion IsChangeSpellable changes.now }
        requires alone { (client : Client) → changes_of client self.old.logs ≡ [] }
        requires spare { length changes.now ≤ self.old.spare }
        ensures goes { IfOk result (λ goes. IsTrue goes ↔ (AllGoOn conditions false self.old.kept changes.now × IsWhole (changed_all conditions.tree changes.now self.old.kept))) }
        ensures after { IfOk result (λ goes. IsTrue goes → self.new.kept ≡ changed_all conditions.tree changes.now self.old.kept) }
        ensures refused { IfOk result (λ goes. goes ≡ false → self.new.kept ≡ self.old.kept) }
        ensures err { OnErr result (self.new.kept ≡ self.old.kept) }
        ensures alone { (client : Client) → changes_of client self.new.logs ≡ [] }
        ensures room { self.new.room ≡ self.old.room }
    {
        au_txn::rows_are_triples();
        au_entries::changes_keep_laws();
        replay_on(
            alloc,
            &self.catalog,
            &self.grants,
            self.instance,
            &mut self.desk,
            changes,
        )
    }

    // Ends a frame: the records that its purge covers go, its own follow, and its stamp is the last.
    fn end_frame(&mut self, stamp: Stamp, purge: Option<Option<Stamp>>, records: List<Record>)
        requires moment { stamp.0 ≤ LAST_MOMENT }
        requires told { AllByRecursion trail_record.IsSpellable records }
        requires room { length records ≤ self.old.room }
        ensures kept { self.new.kept ≡ after_parts conditions.tree stamp purge [] records self.old.kept }
        ensures logs { self.new.logs ≡ self.old.logs }
    {
        settle_trail(&mut self.trail, purge, records.into_vec());
        self.last = stamp;
    }
}
