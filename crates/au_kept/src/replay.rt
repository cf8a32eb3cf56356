//! Frames that are replayed.
ghost use Rattle.std.specs.Prelude.{◌≡◌, ◌↔◌, [], false, IfOk, IsTrue, OnErr};
ghost use Rattle.au_base.specs.declared.numbers.ClientNo.{ClientNo as Client};
ghost use Rattle.au_entries.specs.Imaging.{nothing};
ghost use Rattle.au_kept.specs.Frames.{IsImage, IsReplayable, after_frame};
ghost use Rattle.au_replay.specs.Reading.{conditions};
ghost use Rattle.au_txn.specs.Logs.{changes_of};
ghost use Rattle.rec_codec.specs.Frames.{IsSpellable};

use crate::Keeping;
use crate::quick::is_of_rows;
use au_base::Memory;
use rec_codec::Frame;
use std::alloc::Global;

impl Keeping {
    /// Replays the frame where it goes on from what is kept: true exactly there, and then what is
    /// kept is what the frame makes of it. Else, or where there is no memory, it is as it was. An
    /// image goes on a blank keeping, and no client has changes. A frame whose changes are all of
    /// rows, or can be tested before they are made (`is_in_place`), is replayed in place; for another
    /// one what is kept is built anew.
    pub fn replay(&mut self, alloc: Global, frame: Frame) -> Result<bool, Memory>
        requires spelled { IsSpellable frame }
        requires first { IsImage frame → self.old.kept ≡ nothing }
        requires alone { (client : Client) → changes_of client self.old.logs ≡ [] }
        ensures goes { IfOk result (λ goes. IsTrue goes ↔ IsReplayable conditions self.old.kept frame) }
        ensures after { IfOk result (λ goes. IsTrue goes → self.new.kept ≡ after_frame conditions.tree self.old.kept frame) }
        ensures refused { IfOk result (λ goes. goes ≡ false → self.new.kept ≡ self.old.kept) }
        ensures err { OnErr result (self.new.kept ≡ self.old.kept) }
        ensures alone { (client : Client) → changes_of client self.new.logs ≡ [] }
    {
        if is_of_rows(&frame) {
            return self.replay_rows(alloc, frame);
        }
        if self.is_in_place(&frame) {
            return self.replay_in_place(alloc, frame);
        }
        self.replay_anew(alloc, frame)
    }
}
