//! The records of an image, counted and written where they are lent.
ghost use Rattle.std.specs.Prelude.{◌≡◌, ◌≤◌, ◌∷◌, [], length, OnOk};
ghost use Rattle.std.specs.List.{AllByRecursion, filter};
ghost use Rattle.au_entries.specs.Frames.{is_from, trail_left};
ghost use Rattle.au_image.specs.Image.{trail_told};
ghost use Rattle.rec_codec.specs.Images.{Wrote};
ghost use Rattle.rec_codec.specs.Records.{trail_record};

use crate::told::Told;
use au_base::{Memory, Stamp};
use au_catalog::Record;
use rec_codec::{ImageWriter, writes_join};

impl<'a> Told<'a> {
    /// All records of the trail and no others, with this last stamp.
    pub fn all(trail: &'a [Record], last: Stamp) -> Told<'a>
        ensures records { trail_told result ≡ trail.entry.now }
        ensures last { result.last ≡ last }
    {
        Told {
            trail,
            purge: None,
            records: &[],
            last,
        }
    }
}

/// How many records are told.
pub(crate) fn count_told(told: &Told<'_>) -> u128
    ensures { result ≡ length (trail_told told.now) }
{
    count_left(told.purge, told.trail) as u128 + told.records.len() as u128
}

// How many of the records the purge leaves, all of them where there is none.
fn count_left(purge: Option<Option<Stamp>>, trail: &[Record]) -> usize
    ensures { result ≡ length (trail_left purge trail.now) }
{
    match purge {
        None => trail.len(),
        Some(None) => 0,
        Some(Some(moment)) => count_from(moment, trail),
    }
}

// How many of the records are stamped at the moment or later.
fn count_from(moment: Stamp, trail: &[Record]) -> usize
    ensures { result ≡ length (filter (is_from moment) trail.now) }
{
    trail.iter().filter(|entry| is_from(moment, entry)).count()
}

fn is_from(moment: Stamp, entry: &Record) -> bool
    ensures { result ≡ is_from moment entry.now }
{
    moment.0 <= entry.stamp.0
}

/// Writes the records that are told.
pub(crate) fn write_told(writer: &mut ImageWriter, told: &Told<'_>) -> Result<(), Memory>
    requires changes { writer.old.changes ≡ 0 }
    requires left { length (trail_told told.now) ≤ writer.old.records }
    requires spellable { AllByRecursion trail_record.IsSpellable (trail_told told.now) }
    ensures { OnOk result (Wrote writer.old writer.new [] (trail_told told.now)) }
{
    writes_join();
    write_left(writer, told.purge, told.trail)?;
    write_records(writer, told.records)
}

// Writes the records that the purge leaves, all of them where there is none.
fn write_left(
    writer: &mut ImageWriter,
    purge: Option<Option<Stamp>>,
    trail: &[Record],
) -> Result<(), Memory>
    requires changes { writer.old.changes ≡ 0 }
    requires left { length (trail_left purge trail.now) ≤ writer.old.records }
    requires spellable { AllByRecursion trail_record.IsSpellable (trail_left purge trail.now) }
    ensures { OnOk result (Wrote writer.old writer.new [] (trail_left purge trail.now)) }
{
    writes_join();
    match purge {
        None => write_records(writer, trail),
        Some(None) => Ok(()),
        Some(Some(moment)) => write_from(writer, moment, trail),
    }
}

// Writes the records that are stamped at the moment or later.
fn write_from(writer: &mut ImageWriter, moment: Stamp, trail: &[Record]) -> Result<(), Memory>
    requires changes { writer.old.changes ≡ 0 }
    requires left { length (filter (is_from moment) trail.now) ≤ writer.old.records }
    requires spellable { AllByRecursion trail_record.IsSpellable (filter (is_from moment) trail.now) }
    ensures { OnOk result (Wrote writer.old writer.new [] (filter (is_from moment) trail.now)) }
{
    writes_join();
    for entry in trail {
        write_one_from(writer, moment, entry)?;
    }
    Ok(())
}

// Writes the record where it is stamped at the moment or later.
fn write_one_from(writer: &mut ImageWriter, moment: Stamp, entry: &Record) -> Result<(), Memory>
    requires changes { writer.old.changes ≡ 0 }
    requires left { length (filter (is_from moment) (entry.now ∷ [])) ≤ writer.old.records }
    requires spellable { AllByRecursion trail_record.IsSpellable (filter (is_from moment) (entry.now ∷ [])) }
    ensures { OnOk result (Wrote writer.old writer.new [] (filter (is_from moment) (entry.now ∷ []))) }
{
    writes_join();
    if is_from(moment, entry) {
        return writer.push_record(entry);
    }
    Ok(())
}

fn write_records(writer: &mut ImageWriter, records: &[Record]) -> Result<(), Memory>
    requires changes { writer.old.changes ≡ 0 }
    requires left { length records.now ≤ writer.old.records }
    requires spellable { AllByRecursion trail_record.IsSpellable records.now }
    ensures { OnOk result (Wrote writer.old writer.new [] records.now) }
{
    writes_join();
    for entry in records {
        writer.push_record(entry)?;
    }
    Ok(())
}
