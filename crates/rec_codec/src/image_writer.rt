//! Images that are written piece by piece.
ghost use Rattle.std.specs.Prelude.{◌≡◌, ◌<◌, ◌≤◌, ◌++◌, ◌∷◌, [], ℕ, List, IfOk, OnOk};
ghost use Rattle.au_base.specs.declared.numbers.Stamp.{Stamp as AnyStamp};
ghost use Rattle.au_base.specs.Limits.{LAST_MOMENT};
ghost use Rattle.au_entries.specs.declared.change.Change.{Change as AnyChange};
ghost use Rattle.au_entries.specs.declared.trail_record.Record.{Record as AnyRecord};
ghost use Rattle.rec_codec.specs.declared.frame.Frame.TheVariants.{Image};
ghost use Rattle.rec_codec.specs.Changes.{IsChangeSpellable};
ghost use Rattle.rec_codec.specs.Frames.{IsSpellable, framed};
ghost use Rattle.rec_codec.specs.Images.{Holds, WritesJoin, Wrote, count_behind};
ghost use Rattle.rec_codec.specs.Records.{trail_record};

use crate::listed::Listed;
use au_base::{Memory, Stamp};
use au_entries::{Change, Record};
use rec_parts::{write_u8, write_u32, write_u64};
use std::alloc::Global;
use std::marker::Model;

/// An image that is written piece by piece: as many changes as it was told, and behind them as many
/// records. No list of them stands beside the bytes, and these stand once. After an answer for want
/// of memory it holds nothing of use.
#[derive(Debug, Drop)]
pub struct ImageWriter {
    // the body so far
    bytes: Vec<u8>,
    // how many changes and records are still to come
    changes: u32,
    records: u32,
}

impl Model for ImageWriter {
    ghost use Rattle.rec_codec.specs.Images.{Written};

    ghost Value = { Written };

    ghost view = { λ w. record { bytes = w.bytes.items; changes = w.changes; records = w.records } };
}

impl ImageWriter {
    /// The image with this last stamp, so many changes and so many records, before the first of
    /// them.
    #[tactic(auto, unfolding(rec_parts::specs::Parts::stamp))]
    pub fn new(
        alloc: Global,
        last: Stamp,
        changes: u32,
        records: u32,
    ) -> Result<ImageWriter, Memory>
        requires { last.0 ≤ LAST_MOMENT }
        ensures holds { IfOk result (λ writer. Holds writer last [] []) }
        ensures changes { IfOk result (λ writer. writer.changes ≡ changes) }
        ensures records { IfOk result (λ writer. writer.records ≡ records) }
    {
        let mut bytes = Vec::new(alloc);
        write_u8(&mut bytes, 1)?;
        write_u64(&mut bytes, last.0)?;
        write_u32(&mut bytes, changes)?;
        write_count_behind(&mut bytes, changes, records)?;
        Ok(ImageWriter {
            bytes,
            changes,
            records,
        })
    }

    /// Writes the next change.
    #[tactic(auto, using(crate::proofs::Pieces::with_change), unfolding(crate::specs::Changes::change))]
    pub fn push_change(&mut self, change: &Change) -> Result<(), Memory>
        requires spellable { IsChangeSpellable change.now }
        requires left { 0 < self.old.changes }
        ensures { OnOk result (Wrote self.old self.new (change.now ∷ []) []) }
    {
        change.write(&mut self.bytes)?;
        self.changes -= 1;
        write_count_behind(&mut self.bytes, self.changes, self.records)
    }

    /// Writes the next record, once no change is to come.
    #[tactic(auto, using(crate::proofs::Pieces::with_record))]
    pub fn push_record(&mut self, entry: &Record) -> Result<(), Memory>
        requires spellable { trail_record.IsSpellable entry.now }
        requires changes { self.old.changes ≡ 0 }
        requires left { 0 < self.old.records }
        ensures { OnOk result (Wrote self.old self.new [] (entry.now ∷ [])) }
    {
        entry.write(&mut self.bytes)?;
        self.records -= 1;
        Ok(())
    }

    /// The framed image, once nothing is to come: the body's length in eight bytes, the body, and
    /// the closed gate behind it.
    pub fn finish(self) -> Result<Vec<u8>, Memory>
        requires changes { self.changes ≡ 0 }
        requires records { self.records ≡ 0 }
        ensures bytes { IfOk result (λ bytes. (last : AnyStamp) (changes : List AnyChange) (records : List AnyRecord) → Holds self last changes records → bytes.items ≡ framed (Image last changes records)) }
        ensures spellable { (last : AnyStamp) (changes : List AnyChange) (records : List AnyRecord) → Holds self last changes records → IsSpellable (Image last changes records) }
    {
        let mut bytes = self.bytes;
        let len = bytes.len() as u64;
        write_u8(&mut bytes, 0)?;
        write_u64(&mut bytes, len)?;
        // the length comes to the front, in place
        bytes.rotate_right(8);
        Ok(bytes)
    }
}

/// To write nothing changes nothing, and what is written in two goes is written in one. It does
/// nothing, and states the law for its callers.
pub fn writes_join()
    ensures { WritesJoin }
{}

/// Writes the count of the records, where no change is to come.
fn write_count_behind(out: &mut Vec<u8>, changes: u32, records: u32) -> Result<(), Memory>
    ensures { OnOk result (out.new.items ≡ out.old.items ++ count_behind changes records) }
{
    if changes == 0 {
        write_u32(out, records)?;
    }
    Ok(())
}
