//! Changes of what is kept, made ready and made.
ghost use Rattle.std.specs.Prelude.{◌≡◌, ◌≢◌, ◌≤◌, ◌+◌, ◌++◌, ◌-◌, List as Sequence, [], IfOk, OnOk, Some, length, vec_capacity, vec_len};
ghost use Rattle.std.specs.List.{AllByRecursion, flat_map};
ghost use Rattle.au_catalog.specs.Staging as catalogs;
ghost use Rattle.au_entries.specs.Changing.{grant_changes};
ghost use Rattle.au_grants.specs.Changing.{applied_all};
ghost use Rattle.au_grants.specs.Staging as rights;
ghost use Rattle.au_base.specs.Limits.{GRANTS};
ghost use Rattle.au_base.specs.declared.numbers.ClientNo.{ClientNo as Client};
ghost use Rattle.au_entries.specs.declared.change.Change.{Change as AnyChange};
ghost use Rattle.au_entries.specs.Changing.{changed_all};
ghost use Rattle.au_entries.specs.Frames.{after_parts, trail_left};
ghost use Rattle.au_grants.specs.Rights.{grant_count};
ghost use Rattle.au_kept.specs.Staging.{CanSettle, Fits, IsLogged, IsOfRow, IsStaged, opened_count};
ghost use Rattle.au_replay.specs.Reading.{HasShortText, conditions};
ghost use Rattle.au_txn.specs.Logs.{changes_of};

use crate::Keeping;
use crate::parting::{grant_changes_of, last_start, table_edits_of};
use crate::reading::trees_of;
use crate::settling::{number_after, settle_desk, settle_trail};
use crate::staged::Staged;
use au_base::{ClientNo, Memory, Stamp};
use au_catalog::Catalog;
use au_entries::{Change, Record};
use au_grants::Grants;
use std::alloc::Global;

impl Keeping {
    /// Makes the changes ready to be made in their order, of which none is of a row, and room for so
    /// many records. Nothing is changed until `settle`; no entry is copied, and no tree.
    pub fn stage(
        &mut self,
        alloc: Global,
        changes: &[Change],
        records: usize,
    ) -> Result<Staged, Memory>
        requires short { AllByRecursion HasShortText changes.now }
        requires rowless { AllByRecursion (λ change. ¬ IsOfRow change) changes.now }
        requires few { grant_count (changed_all conditions.tree changes.now self.old.kept).grants ≤ GRANTS }
        ensures staged { IfOk result (IsStaged changes.now) }
        ensures fits { IfOk result (λ staged. Fits staged self.new) }
        ensures kept { self.new.kept ≡ self.old.kept }
        ensures logs { self.new.logs ≡ self.old.logs }
        ensures spare { self.old.spare ≤ self.new.spare }
        ensures room { OnOk result (records ≤ self.new.room) }
        ensures rooms { self.old.room ≤ self.new.room }
    {
        let staged = staged_of(alloc, &mut self.catalog, &mut self.grants, changes)?;
        self.make_room(staged.tables.len(), records)?;
        Ok(staged)
    }

    // Makes room for so many more tables that are open for rows, and for so many more records.
    pub(crate) fn make_room(&mut self, tables: usize, records: usize) -> Result<(), Memory>
        ensures kept { self.new.kept ≡ self.old.kept }
        ensures logs { self.new.logs ≡ self.old.logs }
        ensures spare { OnOk result (tables ≤ self.new.spare) }
        ensures spares { self.old.spare ≤ self.new.spare }
        ensures room { OnOk result (records ≤ self.new.room) }
        ensures rooms { self.old.room ≤ self.new.room }
    {
        self.reserve_tables(tables)?;
        self.trail.reserve(records)?;
        Ok(())
    }

    // Makes room for so many more rows or tables that are open for rows.
    fn reserve_tables(&mut self, tables: usize) -> Result<(), Memory>
        ensures kept { self.new.kept ≡ self.old.kept }
        ensures logs { self.new.logs ≡ self.old.logs }
        ensures spare { OnOk result (tables ≤ self.new.spare) }
        ensures spares { self.old.spare ≤ self.new.spare }
        ensures room { self.new.room ≡ self.old.room }
    {
        au_txn::desks_stay_keyed();
        self.desk.reserve_rows(tables)
    }

    /// Commits the client's changes of rows, where one commits, and then makes the staged changes in
    /// their order; takes away the records that a purge covers, where there is one, and adds the
    /// records at the trail's end. It takes no memory. What is kept hasn't changed since the changes
    /// were staged: `stage` says that what it gave fits it.
    pub fn settle(
        &mut self,
        staged: Staged,
        commits: Option<ClientNo>,
        records: Vec<Record>,
        purge: Option<Option<Stamp>>,
        last: Stamp,
    )
        requires fits { Fits staged self.old }
        requires room { length records.items ≤ self.old.room }
        requires can { (changes : Sequence AnyChange) × IsStaged changes staged × CanSettle self.old commits changes records.items last }
        ensures kept { (changes logged : Sequence AnyChange) → IsStaged changes staged → IsLogged commits self.old changes logged
            → self.new.kept ≡ after_parts conditions.tree last purge logged records.items self.old.kept }
        ensures own { (client : Client) → commits ≡ Some client → changes_of client self.new.logs ≡ [] }
        ensures others { (client : Client) → commits ≢ Some client → changes_of client self.new.logs ≡ changes_of client self.old.logs }
        ensures spare { self.old.spare ≤ self.new.spare + opened_count staged.tables.items }
        ensures room { self.old.room ≤ self.new.room + length records.items }
    {
        au_catalog::catalogues_change_by_their_parts();
        au_entries::changes_keep_laws();
        au_txn::rows_are_triples();
        au_txn::finals_settle();
        au_txn::laid_rows_answer();
        au_txn::tables_go_with_their_rows();
        self.desk.holds_together();
        let Staged {
            catalog,
            grants,
            tables,
            instance,
        } = staged;
        settle_desk(&mut self.desk, commits, tables);
        settle_trail(&mut self.trail, purge, records);
        self.catalog.settle(catalog);
        self.grants.settle(grants);
        self.last = last;
        self.instance = number_after(instance, self.instance);
    }
}

// The changes, ready to be made on the catalogue and the grants.
fn staged_of(
    alloc: Global,
    catalog: &mut Catalog,
    grants: &mut Grants,
    changes: &[Change],
) -> Result<Staged, Memory>
    requires short { AllByRecursion HasShortText changes.now }
    requires rowless { AllByRecursion (λ change. ¬ IsOfRow change) changes.now }
    requires few { grant_count (applied_all (flat_map grant_changes changes.now) grants.old) ≤ GRANTS }
    ensures staged { IfOk result (IsStaged changes.now) }
    ensures catalog { IfOk result (λ staged. catalogs.Fits staged.catalog catalog.new) }
    ensures grants { IfOk result (λ staged. rights.Fits staged.grants grants.new) }
    ensures catalog_stays { catalog.new ≡ catalog.old }
    ensures grants_stay { grants.new ≡ grants.old }
{
    let trees = trees_of(alloc, changes)?;
    let made = grant_changes_of(alloc, changes)?;
    let tables = table_edits_of(alloc, changes)?;
    let staged = catalog.stage(alloc, changes, trees)?;
    Ok(Staged {
        catalog: staged,
        grants: grants.stage(alloc, made.as_slice())?,
        tables,
        instance: last_start(changes),
    })
}
