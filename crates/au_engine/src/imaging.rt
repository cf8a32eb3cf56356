//! The image of what is kept after a step that isn't made yet.
ghost use Rattle.std.specs.Prelude.{◌≡◌, [], IfOk, OnOk};
ghost use Rattle.au_entries.specs.declared.kept.Kept.{Kept};
ghost use Rattle.au_image.specs.Image.{IsWritable, image_of, trail_told};
ghost use Rattle.au_kept.specs.Anew.{untold};
ghost use Rattle.au_entries.specs.Imaging.{nothing};
ghost use Rattle.au_step.specs.Replaying.{EndsWell, IsImage, IsReplayable, after_frame};
ghost use Rattle.au_step.specs.State.{resting};
ghost use Rattle.au_engine.specs.Imaging.{LeadsBy, Takes, sees_as, seen_told, told};
ghost use Rattle.au_engine.specs.Prepared.{Fits, after, commits_of};
ghost use Rattle.au_engine.specs.Reserved.{contents_of};
ghost use Rattle.rec_codec.specs.Frames.{IsSpellable, framed};

use crate::Engine;
use crate::framing::body_in;
use crate::outcome::{RowsChange, SessionChange};
use crate::prepared::Prepared;
use au_base::{ClientNo, Memory, Stamp};
use au_image::Told;
use au_replay::sights_suffice;
use rec_codec::{Frame, one_reading, read};
use std::alloc::Global;

impl Engine {
    /// The framed image of what is kept after a step that was worked out, as `apply` will leave it:
    /// the body's length in eight bytes, the body, and a closed gate. The state is left as it is. What
    /// has more changes or records than an image can count, 4,294,967,295, answers `Memory`.
    ///
    /// Where the step changes nothing beside the trail but the rows that it commits, as each purge, the
    /// image is written in one pass over what is kept, with the rows as the client that commits sees
    /// them. It takes no more memory than `image`, and no record is copied. Where it changes anything
    /// else, what is kept is copied first, without its trail: an image of it is written and read back,
    /// and the step's frame is replayed on that. That takes the memory of this image, of the same as
    /// changes, and of the copy beside.
    pub fn image_after(&self, alloc: Global, prepared: &Prepared) -> Result<Vec<u8>, Memory>
        requires seated { EndsWell self.now.state.kept }
        requires fits { Fits prepared.now self.now }
        requires leads { LeadsBy self.now.state.kept prepared.now.framed (after prepared.now self.now.state).kept }
        ensures bytes { IfOk result (λ bytes. bytes.items ≡ framed (image_of (after prepared.now self.now.state).kept)) }
        ensures spellable { IfOk result (λ bytes. IsSpellable (image_of (after prepared.now self.now.state).kept)) }
    {
        let events = Told {
            trail: self.trail(),
            purge: prepared.purge,
            records: prepared.records.as_slice(),
            last: prepared.last,
        };
        if prepared.finals == prepared.changes.len() {
            self.holds_together();
            au_txn::rows_are_triples();
            self.image_seen(alloc, committing(&prepared.sessions), &events)
        } else {
            let changed = self.changed_by(alloc, prepared)?;
            let image = changed.image_told(alloc, &events);
            drop(changed);
            image
        }
    }

    // The framed image of what is kept, with the rows as the client sees them, and with the trail and
    // the last stamp that are told.
    fn image_seen(
        &self,
        alloc: Global,
        client: ClientNo,
        events: &Told<'_>,
    ) -> Result<Vec<u8>, Memory>
        requires { IsWritable (seen_told client events.now (contents_of self.now)) }
        ensures bytes { IfOk result (λ bytes. bytes.items ≡ framed (image_of (seen_told client events.now (contents_of self.now)))) }
        ensures spellable { IfOk result (λ bytes. IsSpellable (image_of (seen_told client events.now (contents_of self.now)))) }
    {
        au_image::image(
            alloc,
            self.keeping.catalog(),
            self.keeping.grants(),
            self.keeping.desk(),
            client,
            events,
            self.keeping.instance(),
        )
    }

    // The framed image of what is kept, with the trail and the last stamp that are told.
    fn image_told(&self, alloc: Global, events: &Told<'_>) -> Result<Vec<u8>, Memory>
        requires { IsWritable (told (trail_told events.now) events.now.last self.now.state.kept) }
        ensures bytes { IfOk result (λ bytes. bytes.items ≡ framed (image_of (told (trail_told events.now) events.now.last self.now.state.kept))) }
        ensures spellable { IfOk result (λ bytes. IsSpellable (image_of (told (trail_told events.now) events.now.last self.now.state.kept))) }
    {
        self.holds_together();
        au_txn::rows_are_triples();
        self.image_seen(alloc, ClientNo(0), events)
    }

    // An engine of what is kept after the step, but for the trail and the last stamp.
    fn changed_by(&self, alloc: Global, prepared: &Prepared) -> Result<Engine, Memory>
        requires seated { EndsWell self.now.state.kept }
        requires leads { LeadsBy self.now.state.kept prepared.now.framed (after prepared.now self.now.state).kept }
        ensures { IfOk result (λ changed. untold changed.state.kept ≡ untold (after prepared.now self.now.state).kept) }
    {
        sights_suffice();
        let copy = self.copy_untold(alloc)?;
        match prepared.body() {
            None => Ok(copy),
            Some(body) => {
                let changed = copy.after_body(alloc, body)?;
                Ok(changed)
            }
        }
    }

    // An engine of what is kept without the trail and the last stamp. No client has a session.
    fn copy_untold(&self, alloc: Global) -> Result<Engine, Memory>
        requires seated { EndsWell self.now.state.kept }
        ensures { IfOk result (λ copy. copy.state ≡ resting (untold self.now.state.kept)) }
    {
        self.lawful();
        au_entries::images_come_back();
        let image = self.image_told(alloc, &Told::all(&[], Stamp(0)))?;
        let blank = Engine::empty(alloc)?;
        let copy = blank.after_body(alloc, body_in(image.as_slice()))?;
        Ok(copy)
    }

    // The engine after the body of a frame, which goes on.
    fn after_body(self, alloc: Global, body: &[u8]) -> Result<Engine, Memory>
        requires idle { self.state.sessions ≡ [] }
        requires takes { (next : Kept) × Takes self.state.kept body.now next }
        ensures { IfOk result (λ engine. (next : Kept) → Takes self.state.kept body.now next → engine.state ≡ record self.state { kept = next }) }
    {
        let mut engine = self;
        match engine.take_body(alloc, body) {
            Ok(()) => Ok(engine),
            Err(why) => {
                drop(engine);
                Err(why)
            }
        }
    }

    // Replays the body of a frame, which goes on.
    fn take_body(&mut self, alloc: Global, body: &[u8]) -> Result<(), Memory>
        requires idle { self.old.state.sessions ≡ [] }
        requires takes { (next : Kept) × Takes self.old.state.kept body.now next }
        ensures { OnOk result ((next : Kept) → Takes self.old.state.kept body.now next → self.new.state ≡ record self.old.state { kept = next }) }
    {
        one_reading();
        match read(alloc, body)? {
            Some(frame) => self.take_frame(alloc, frame),
            None => unreachable!(),
        }
    }

    // Replays the frame, which goes on.
    fn take_frame(&mut self, alloc: Global, frame: Frame) -> Result<(), Memory>
        requires idle { self.old.state.sessions ≡ [] }
        requires spelled { IsSpellable frame }
        requires first { IsImage frame → self.old.state.kept ≡ nothing }
        requires goes { IsReplayable self.old.state.kept frame }
        ensures { OnOk result (self.new.state ≡ record self.old.state { kept = after_frame self.old.state.kept frame }) }
    {
        if self.replay(alloc, frame)? {
            return Ok(());
        }
        unreachable!()
    }
}

// The client that commits by the change, or client 0, which has no changes, where none does.
fn committing(change: &SessionChange) -> ClientNo
    ensures { result ≡ sees_as (commits_of change.now) }
{
    match change {
        SessionChange::Counts { client, rows, .. } => match rows {
            RowsChange::Commits => *client,
            RowsChange::Nothing | RowsChange::Writes { .. } | RowsChange::Undoes => ClientNo(0),
        },
        SessionChange::Nothing | SessionChange::Begins(_) | SessionChange::Ends(_) => ClientNo(0),
    }
}
