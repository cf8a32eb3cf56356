//! The image of what is kept, written entry by entry.
ghost use Rattle.std.specs.Prelude.{◌≡◌, ◌≤◌, ◌<◌, ◌^◌, ◌∷◌, ℕ, List, [], length, map, IfOk, OnErr, OnOk};
ghost use Rattle.std.specs.List.{AllByRecursion};
ghost use Rattle.au_entries.specs.Changing.{KeptRow};
ghost use Rattle.au_entries.specs.declared.change.Change.TheVariants.{Start};
ghost use Rattle.rec_codec.specs.Changes.{IsChangeSpellable};
ghost use Rattle.rec_codec.specs.Frames.{IsSpellable, framed};
ghost use Rattle.rec_codec.specs.Images.{Wrote};
ghost use Rattle.au_image.specs.Image.{IsReady, IsWritable, archive_changes, audit_changes, image_changes, image_of, kept_as_told, kept_of, open_table, rows_seen_by, stored_changes};

use crate::entries::Entry;
use crate::recording::{count_told, write_told};
use crate::rows::{count_rows, write_rows};
use crate::told::Told;
use au_base::{ClientNo, Memory, Stamp};
use au_catalog::{Catalog, Change};
use au_grants::Grants;
use au_txn::Desk;
use rec_codec::{ImageWriter, writes_join};
use std::alloc::Global;

/// The framed image of this catalogue, these grants, the rows as this client sees them, and what is
/// told, with the number of the instance. A client sees the committed rows with its own changes laid
/// over them, which is what its commit leaves. All of it is written where it is lent: beside the bytes
/// stand one change and the list of one table's rows. What has more changes or records than an image
/// can count, 4,294,967,295, answers `Memory`.
pub fn image(
    alloc: Global,
    catalog: &Catalog,
    grants: &Grants,
    desk: &Desk,
    client: ClientNo,
    told: &Told<'_>,
    instance: u32,
) -> Result<Vec<u8>, Memory>
    requires writable { IsWritable (kept_as_told catalog.now grants.now desk.now client told.now instance) }
    requires desk { desk.now.tables ≡ map open_table catalog.now.tables }
    ensures bytes { IfOk result (λ bytes. bytes.items ≡ framed (image_of (kept_as_told catalog.now grants.now desk.now client told.now instance))) }
    ensures spellable { IfOk result (λ bytes. IsSpellable (image_of (kept_as_told catalog.now grants.now desk.now client told.now instance))) }
{
    let rows = count_rows(alloc, desk, client, catalog.tables.as_slice())?;
    let changes = count_of(count_changes(catalog, grants, rows))?;
    let records = count_of(count_told(told))?;
    let mut writer = ImageWriter::new(alloc, told.last, changes, records)?;
    write_changes(alloc, &mut writer, catalog, grants, desk, client, instance)?;
    write_told(&mut writer, told)?;
    let bytes = writer.finish()?;
    Ok(bytes)
}

// An image counts its changes and its records in four bytes each.
fn count_of(len: u128) -> Result<u32, Memory>
    ensures ok { IfOk result (λ count. count ≡ len) }
    ensures err { OnErr result (2 ^ 32 ≤ len) }
{
    if len > u32::MAX as u128 {
        return Err(Memory);
    }
    Ok(len as u32)
}

// How many changes the image has.
fn count_changes(catalog: &Catalog, grants: &Grants, rows: u32) -> u128
    ensures { (stored : List KeptRow) → length stored ≡ rows → (instance : ℕ) → result ≡ length (image_changes (kept_of catalog.now grants.now stored [] (record { 0 = 0 }) instance)) }
{
    let names = catalog.users.len() as u128 + catalog.roles.len() as u128;
    let system = grants.system_grants().len() as u128;
    let role = grants.role_grants().len() as u128;
    let object = grants.object_grants().len() as u128;
    let stored = catalog.tables.len() as u128 + rows as u128;
    let audit = catalog.policies.len() as u128 + catalog.enabled.len() as u128;
    let fga = catalog.fga.len() as u128 + count_archive(catalog.archive) as u128;
    names + system + role + stored + object + audit + fga + 1
}

fn count_archive(archive: Option<Stamp>) -> u8
    ensures { result ≡ length (archive_changes archive) }
{
    match archive {
        None => 0,
        Some(_) => 1,
    }
}

fn write_changes(
    alloc: Global,
    writer: &mut ImageWriter,
    catalog: &Catalog,
    grants: &Grants,
    desk: &Desk,
    client: ClientNo,
    instance: u32,
) -> Result<(), Memory>
    requires ready { IsReady writer.old (image_changes (kept_of catalog.now grants.now (rows_seen_by client desk.now) [] (record { 0 = 0 }) instance)) }
    requires desk { desk.now.tables ≡ map open_table catalog.now.tables }
    ensures { OnOk result (Wrote writer.old writer.new (image_changes (kept_of catalog.now grants.now (rows_seen_by client desk.now) [] (record { 0 = 0 }) instance)) []) }
{
    writes_join();
    write_group(writer, catalog.users.as_slice())?;
    write_group(writer, catalog.roles.as_slice())?;
    write_group(writer, grants.system_grants())?;
    write_group(writer, grants.role_grants())?;
    write_stored(alloc, writer, catalog, grants, desk, client, instance)?;
    Ok(())
}

// What stands behind the grants of roles: tables, rows, object privileges, and what is behind them.
fn write_stored(
    alloc: Global,
    writer: &mut ImageWriter,
    catalog: &Catalog,
    grants: &Grants,
    desk: &Desk,
    client: ClientNo,
    instance: u32,
) -> Result<(), Memory>
    requires ready { IsReady writer.old (stored_changes (kept_of catalog.now grants.now (rows_seen_by client desk.now) [] (record { 0 = 0 }) instance)) }
    requires desk { desk.now.tables ≡ map open_table catalog.now.tables }
    ensures { OnOk result (Wrote writer.old writer.new (stored_changes (kept_of catalog.now grants.now (rows_seen_by client desk.now) [] (record { 0 = 0 }) instance)) []) }
{
    writes_join();
    write_group(writer, catalog.tables.as_slice())?;
    write_rows(alloc, writer, desk, client, catalog.tables.as_slice())?;
    write_group(writer, grants.object_grants())?;
    write_audit(writer, catalog, instance)?;
    Ok(())
}

// What stands behind the object privileges: policies, the archive timestamp and the instance.
fn write_audit(writer: &mut ImageWriter, catalog: &Catalog, instance: u32) -> Result<(), Memory>
    requires { IsReady writer.old (audit_changes catalog.now instance) }
    ensures { OnOk result (Wrote writer.old writer.new (audit_changes catalog.now instance) []) }
{
    writes_join();
    write_group(writer, catalog.policies.as_slice())?;
    write_group(writer, catalog.enabled.as_slice())?;
    write_group(writer, catalog.fga.as_slice())?;
    write_archive(writer, catalog.archive)?;
    write_start(writer, instance)?;
    Ok(())
}

fn write_archive(writer: &mut ImageWriter, archive: Option<Stamp>) -> Result<(), Memory>
    requires left { length (archive_changes archive) ≤ writer.old.changes }
    requires spellable { AllByRecursion IsChangeSpellable (archive_changes archive) }
    ensures { OnOk result (Wrote writer.old writer.new (archive_changes archive) []) }
{
    writes_join();
    match archive {
        None => Ok(()),
        Some(stamp) => writer.push_change(&Change::Archive(Some(stamp))),
    }
}

fn write_start(writer: &mut ImageWriter, instance: u32) -> Result<(), Memory>
    requires left { 0 < writer.old.changes }
    requires spellable { IsChangeSpellable (Start instance) }
    ensures { OnOk result (Wrote writer.old writer.new (Start instance ∷ []) []) }
{
    writer.push_change(&Change::Start(instance))
}

// Writes the entries of a list, each as its change.
fn write_group<T: Entry>(writer: &mut ImageWriter, entries: &[T]) -> Result<(), Memory>
    requires left { length entries.now ≤ writer.old.changes }
    requires spellable { AllByRecursion IsChangeSpellable (map T.as_change entries.now) }
    ensures { OnOk result (Wrote writer.old writer.new (map T.as_change entries.now) []) }
{
    writes_join();
    for entry in entries {
        write_entry(writer, entry)?;
    }
    Ok(())
}

// The change is lent in a function of its own, which has no way out while it stands.
fn write_entry<T: Entry>(writer: &mut ImageWriter, entry: &T) -> Result<(), Memory>
    requires left { 0 < writer.old.changes }
    requires spellable { IsChangeSpellable (T.as_change entry.now) }
    ensures { OnOk result (Wrote writer.old writer.new (T.as_change entry.now ∷ []) []) }
{
    let change = entry.change()?;
    write_change(writer, &change)
}

pub(crate) fn write_change(writer: &mut ImageWriter, change: &Change) -> Result<(), Memory>
    requires left { 0 < writer.old.changes }
    requires spellable { IsChangeSpellable change.now }
    ensures { OnOk result (Wrote writer.old writer.new (change.now ∷ []) []) }
{
    writer.push_change(change)
}
