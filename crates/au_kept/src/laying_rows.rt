//! Rows that a frame puts and takes away, laid in place on a desk on which no client has changes.
ghost use Rattle.std.specs.Prelude.{◌≡◌, ◌↔◌, ◌+◌, ◌≤◌, ◌⊎◌, [], IfOk, IsSome, IsTrue, OnErr, false, length, map};
ghost use Rattle.std.specs.List.{AllByRecursion};
ghost use Rattle.std.specs.Option.{option_map};
ghost use Rattle.au_catalog.specs.Staging.{IsOrdered};
ghost use Rattle.au_entries.specs.declared.change.Change.TheVariants as change;
ghost use Rattle.au_entries.specs.Changing.{changed, changed_all};
ghost use Rattle.au_entries.specs.Lawful.{IsLawful, IsWhole};
ghost use Rattle.au_entries.specs.Replaying.{AllGoOn, GoesOn};
ghost use Rattle.au_image.specs.Image.{open_table};
ghost use Rattle.au_kept.specs.descent.Laying.{IsAlone, IsStill, kept_seen};
ghost use Rattle.au_kept.specs.Sound.{IsKept};
ghost use Rattle.au_kept.specs.Staging.{IsOfRow};
ghost use Rattle.rec_codec.specs.Changes.{IsChangeSpellable};
ghost use Rattle.au_replay.specs.Reading.{conditions};
ghost use Rattle.au_replay.specs.Sights.{grants_of, showable, shown};
ghost use Rattle.au_replay.specs.Touched.{IsWholeWhereTouched};
ghost use Rattle.au_txn.specs.Desks.{is_open, open_of, replayer};
ghost use Rattle.au_txn.specs.Keys.{IsKeyedDesk};
ghost use Rattle.au_txn.specs.Rows.{row_at, with_content};
ghost use Rattle.au_txn.specs.Transactions.{laid_over};

use au_base::{Cell, List, Memory, RowNo, TableName};
use au_catalog::Catalog;
use au_entries::Change;
use au_grants::Grants;
use au_replay::{GrantsSeen, Sight, gone_goes_on, put_goes_on, touched_is_whole};
use au_txn::Desk;
use std::alloc::Global;

/// What is kept, with the rows that are laid on the desk, as changes are tested against it.
pub(crate) fn sight_of<'a>(
    catalog: &'a Catalog,
    grants: &'a Grants,
    desk: &'a Desk,
    instance: u32,
) -> Sight<'a>
    ensures shown { shown result ≡ showable (kept_seen catalog.entry.now grants.entry.now desk.entry.now instance) }
    ensures users { result.users.now ≡ catalog.entry.now.users }
    ensures roles { result.roles.now ≡ catalog.entry.now.roles }
    ensures grants { grants_of result.grants ≡ grants.entry.now }
    ensures tables { result.tables.now ≡ catalog.entry.now.tables }
    ensures desk { result.desk.now ≡ desk.entry.now }
    ensures policies { result.policies.now ≡ catalog.entry.now.policies }
    ensures enabled { result.enabled.now ≡ catalog.entry.now.enabled }
    ensures fga { result.fga.now ≡ catalog.entry.now.fga }
    ensures instance { result.instance ≡ instance }
{
    Sight {
        users: catalog.users.as_slice(),
        roles: catalog.roles.as_slice(),
        grants: GrantsSeen::Held(grants),
        tables: catalog.tables.as_slice(),
        desk,
        policies: catalog.policies.as_slice(),
        enabled: catalog.enabled.as_slice(),
        fga: catalog.fga.as_slice(),
        instance,
    }
}

/// Makes the changes, which are of rows, where each goes on after those before it and all of them
/// leave what is kept whole. Nothing is changed where they don't, or where there is no memory.
pub(crate) fn replay_on(
    alloc: Global,
    catalog: &Catalog,
    grants: &Grants,
    instance: u32,
    desk: &mut Desk,
    changes: &[Change],
) -> Result<bool, Memory>
    requires rows { AllByRecursion IsOfRow changes.now }
    requires spelled { AllByRecursion IsChangeSpellable changes.now }
    requires alone { IsAlone desk.old }
    requires bare { desk.old.laid ≡ [] }
    requires opened { desk.old.tables ≡ map open_table catalog.now.tables }
    requires keyed { IsKeyedDesk desk.old }
    requires kept { IsKept conditions (kept_seen catalog.now grants.now desk.old instance) }
    requires spare { length changes.now ≤ desk.old.spare }
    ensures goes { IfOk result (λ goes. IsTrue goes ↔ (AllGoOn conditions false (kept_seen catalog.now grants.now desk.old instance) changes.now × IsWhole (changed_all conditions.tree changes.now (kept_seen catalog.now grants.now desk.old instance)))) }
    ensures after { IfOk result (λ goes. IsTrue goes → kept_seen catalog.now grants.now desk.new instance ≡ changed_all conditions.tree changes.now (kept_seen catalog.now grants.now desk.old instance)) }
    ensures refused { IfOk result (λ goes. goes ≡ false → desk.new.rows ≡ desk.old.rows) }
    ensures err { OnErr result (desk.new.rows ≡ desk.old.rows) }
    ensures tables { desk.new.tables ≡ desk.old.tables }
    ensures alone { IsAlone desk.new }
    ensures bare { desk.new.laid ≡ [] }
    ensures keyed { IsKeyedDesk desk.new }
    ensures kept { IsKept conditions (kept_seen catalog.now grants.now desk.new instance) }
{
    au_entries::changes_keep_laws();
    au_txn::desks_stay_keyed();
    match lay_whole(alloc, catalog, grants, instance, desk, changes) {
        Ok(true) => {
            keep(catalog, grants, instance, desk);
            Ok(true)
        }
        Ok(false) => {
            take_back(desk);
            Ok(false)
        }
        Err(memory) => {
            take_back(desk);
            Err(memory)
        }
    }
}

// Makes what is laid committed.
fn keep(catalog: &Catalog, grants: &Grants, instance: u32, desk: &mut Desk)
    requires alone { IsAlone desk.old }
    requires opened { desk.old.tables ≡ map open_table catalog.now.tables }
    requires kept { IsKept conditions (kept_seen catalog.now grants.now desk.old instance) }
    ensures kept { kept_seen catalog.now grants.now desk.new instance ≡ kept_seen catalog.now grants.now desk.old instance }
    ensures tables { desk.new.tables ≡ desk.old.tables }
    ensures alone { IsAlone desk.new }
    ensures bare { desk.new.laid ≡ [] }
    ensures keyed { IsKeyedDesk desk.new }
{
    au_txn::desks_stay_keyed();
    au_txn::rows_stand_by_tables();
    desk.keep_laid();
}

// Takes what is laid away.
fn take_back(desk: &mut Desk)
    requires alone { IsAlone desk.old }
    ensures tables { desk.new.tables ≡ desk.old.tables }
    ensures rows { desk.new.rows ≡ desk.old.rows }
    ensures alone { IsAlone desk.new }
    ensures bare { desk.new.laid ≡ [] }
{
    desk.drop_laid();
}

// Lays the rows that the changes put or take away, where each goes on after those before it, and
// says whether all of them leave what is kept whole.
fn lay_whole(
    alloc: Global,
    catalog: &Catalog,
    grants: &Grants,
    instance: u32,
    desk: &mut Desk,
    changes: &[Change],
) -> Result<bool, Memory>
    requires rows { AllByRecursion IsOfRow changes.now }
    requires alone { IsAlone desk.old }
    requires opened { desk.old.tables ≡ map open_table catalog.now.tables }
    requires lawful { IsLawful conditions (kept_seen catalog.now grants.now desk.old instance) }
    requires whole { IsWhole (kept_seen catalog.now grants.now desk.old instance) }
    requires spare { length changes.now ≤ desk.old.spare }
    ensures goes { IfOk result (λ goes. IsTrue goes ↔ (AllGoOn conditions false (kept_seen catalog.now grants.now desk.old instance) changes.now × IsWhole (changed_all conditions.tree changes.now (kept_seen catalog.now grants.now desk.old instance)))) }
    ensures seen { IfOk result (λ goes. IsTrue goes → kept_seen catalog.now grants.now desk.new instance ≡ changed_all conditions.tree changes.now (kept_seen catalog.now grants.now desk.old instance)) }
    ensures still { IsStill desk.old desk.new }
{
    au_entries::changes_keep_laws();
    au_replay::touched_parts_suffice();
    if !lay_all(alloc, catalog, grants, instance, desk, changes)? {
        return Ok(false);
    }
    is_whole(alloc, catalog, grants, instance, desk, changes)
}

// Whether what the changes touched is whole, as it is laid.
fn is_whole(
    alloc: Global,
    catalog: &Catalog,
    grants: &Grants,
    instance: u32,
    desk: &Desk,
    changes: &[Change],
) -> Result<bool, Memory>
    requires opened { desk.now.tables ≡ map open_table catalog.now.tables }
    requires lawful { IsLawful conditions (kept_seen catalog.now grants.now desk.now instance) }
    ensures { IfOk result (λ whole. IsTrue whole ↔ IsWholeWhereTouched changes.now (kept_seen catalog.now grants.now desk.now instance)) }
{
    let sight = sight_of(catalog, grants, desk, instance);
    touched_is_whole(alloc, &sight, changes)
}

// Lays the rows that the changes put or take away, each where its change goes on after those before.
fn lay_all(
    alloc: Global,
    catalog: &Catalog,
    grants: &Grants,
    instance: u32,
    desk: &mut Desk,
    changes: &[Change],
) -> Result<bool, Memory>
    requires rows { AllByRecursion IsOfRow changes.now }
    requires alone { IsAlone desk.old }
    requires order { IsOrdered catalog.now }
    requires opened { desk.old.tables ≡ map open_table catalog.now.tables }
    requires spare { length changes.now ≤ desk.old.spare }
    ensures goes { IfOk result (λ goes. IsTrue goes ↔ AllGoOn conditions false (kept_seen catalog.now grants.now desk.old instance) changes.now) }
    ensures seen { IfOk result (λ goes. IsTrue goes → kept_seen catalog.now grants.now desk.new instance ≡ changed_all conditions.tree changes.now (kept_seen catalog.now grants.now desk.old instance)) }
    ensures still { IsStill desk.old desk.new }
{
    for change in changes {
        if !lay_one(alloc, catalog, grants, instance, desk, change)? {
            return Ok(false);
        }
    }
    Ok(true)
}

// Lays the row that the change puts or takes away, where it goes on.
fn lay_one(
    alloc: Global,
    catalog: &Catalog,
    grants: &Grants,
    instance: u32,
    desk: &mut Desk,
    change: &Change,
) -> Result<bool, Memory>
    requires row { IsOfRow change.now }
    requires alone { IsAlone desk.old }
    requires order { IsOrdered catalog.now }
    requires opened { desk.old.tables ≡ map open_table catalog.now.tables }
    requires spare { 1 ≤ desk.old.spare }
    ensures goes { IfOk result (λ goes. IsTrue goes ↔ GoesOn conditions false (kept_seen catalog.now grants.now desk.old instance) change.now) }
    ensures seen { IfOk result (λ goes. IsTrue goes → kept_seen catalog.now grants.now desk.new instance ≡ changed conditions.tree change.now (kept_seen catalog.now grants.now desk.old instance)) }
    ensures still { IsStill desk.old desk.new }
    ensures spare { desk.old.spare ≤ desk.new.spare + 1 }
{
    match change {
        Change::Put(table, row, cells) => {
            let goes = may_put(catalog, grants, instance, desk, table, *row, cells);
            put_row(catalog, grants, instance, desk, table, *row, cells, goes)
        }
        Change::Gone(table, row) => {
            let goes = may_take(catalog, grants, instance, desk, table, *row);
            Ok(take_row(catalog, grants, instance, desk, table, *row, goes))
        }
        _ => Ok(false),
    }
}

// Whether the row may be put.
fn may_put(
    catalog: &Catalog,
    grants: &Grants,
    instance: u32,
    desk: &Desk,
    table: &TableName,
    row: RowNo,
    cells: &List<Cell>,
) -> bool
    requires order { IsOrdered catalog.now }
    ensures { IsTrue result ↔ GoesOn conditions false (kept_seen catalog.now grants.now desk.now instance) (change.Put table.now row cells.now) }
{
    let sight = sight_of(catalog, grants, desk, instance);
    put_goes_on(&sight, table, row, cells.as_slice())
}

// Whether the row may go.
fn may_take(
    catalog: &Catalog,
    grants: &Grants,
    instance: u32,
    desk: &Desk,
    table: &TableName,
    row: RowNo,
) -> bool
    ensures { IsTrue result ↔ GoesOn conditions false (kept_seen catalog.now grants.now desk.now instance) (change.Gone table.now row) }
{
    let sight = sight_of(catalog, grants, desk, instance);
    gone_goes_on(&sight, table, row)
}

// Lays the row, where it may be put, and says whether it may.
fn put_row(
    catalog: &Catalog,
    grants: &Grants,
    instance: u32,
    desk: &mut Desk,
    table: &TableName,
    row: RowNo,
    cells: &List<Cell>,
    goes: bool,
) -> Result<bool, Memory>
    requires alone { IsAlone desk.old }
    requires opened { desk.old.tables ≡ map open_table catalog.now.tables }
    requires spare { 1 ≤ desk.old.spare }
    requires goes { IsTrue goes → GoesOn conditions false (kept_seen catalog.now grants.now desk.old instance) (change.Put table.now row cells.now) }
    ensures goes { IfOk result (λ same. same ≡ goes) }
    ensures seen { IfOk result (λ same. IsTrue same → kept_seen catalog.now grants.now desk.new instance ≡ changed conditions.tree (change.Put table.now row cells.now) (kept_seen catalog.now grants.now desk.old instance)) }
    ensures still { IsStill desk.old desk.new }
    ensures spare { desk.old.spare ≤ desk.new.spare + 1 }
{
    au_txn::rows_are_triples();
    if !goes {
        return Ok(false);
    }
    let cells = cells.clone()?;
    set_row(desk, table, row, Some(cells.into_vec()));
    Ok(true)
}

// Lays that the row is gone, where it may go, and says whether it may.
fn take_row(
    catalog: &Catalog,
    grants: &Grants,
    instance: u32,
    desk: &mut Desk,
    table: &TableName,
    row: RowNo,
    goes: bool,
) -> bool
    requires alone { IsAlone desk.old }
    requires spare { 1 ≤ desk.old.spare }
    requires goes { IsTrue goes → GoesOn conditions false (kept_seen catalog.now grants.now desk.old instance) (change.Gone table.now row) }
    ensures goes { result ≡ goes }
    ensures seen { IsTrue result → kept_seen catalog.now grants.now desk.new instance ≡ changed conditions.tree (change.Gone table.now row) (kept_seen catalog.now grants.now desk.old instance) }
    ensures still { IsStill desk.old desk.new }
    ensures spare { desk.old.spare ≤ desk.new.spare + 1 }
{
    au_txn::rows_are_triples();
    au_txn::rows_stand_by_tables();
    au_txn::laid_rows_answer();
    desk.holds_together();
    if !goes {
        return false;
    }
    set_row(desk, table, row, None);
    true
}

// Lays the content of the row.
fn set_row(desk: &mut Desk, table: &TableName, row: RowNo, content: Option<Vec<Cell>>)
    requires alone { IsAlone desk.old }
    requires spare { 1 ≤ desk.old.spare }
    requires there { IsTrue (is_open table.now desk.old.tables) }
    requires numbered { 1 ≤ row.0 }
    requires content { IsSome content ⊎ IsSome (row_at table.now row (laid_over desk.old.rows (open_of desk.old replayer))) }
    ensures seen { laid_over desk.new.rows (open_of desk.new replayer) ≡ with_content table.now row (option_map (λ cells. cells.items) content) (laid_over desk.old.rows (open_of desk.old replayer)) }
    ensures still { IsStill desk.old desk.new }
    ensures spare { desk.old.spare ≤ desk.new.spare + 1 }
{
    au_txn::lone_clients_meet_no_lock();
    au_txn::laid_rows_answer();
    desk.lay(table, row, content);
}
