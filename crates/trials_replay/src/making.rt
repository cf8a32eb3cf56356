//! Changes that are made.
ghost use Rattle.std.specs.Prelude.{◌≡◌, IfOk, length};
ghost use Rattle.au_catalog.specs.Settling.{condition_texts};
ghost use Rattle.au_catalog.specs.Staging.{IsOrdered};

use crate::asking::goes_from;
use crate::changes::change;
use crate::grants::grant_change;
use crate::trees::trees_of;
use crate::world::{World, sight};
use au_base::limits::GRANTS;
use au_base::{Cell, ClientNo, List, RowNo, TableName};
use au_catalog::{Catalog, Change};
use au_grants::{GrantChange, Grants, changes_add_one_grant_at_most};
use au_txn::Desk;
use sql_ast::Expr;
use std::alloc::Global;
use std::slice;
use trials_lines::Fault;

/// Makes the change of the line where it goes on as one of an event, and says whether it does.
pub fn made(alloc: Global, world: &mut World, line: &str) -> Result<bool, Fault>
    requires { IsOrdered world.old.catalog }
    ensures { IsOrdered world.new.catalog }
{
    make(alloc, world, &change(alloc, line)?)
}

fn make(alloc: Global, world: &mut World, change: &Change) -> Result<bool, Fault>
    requires { IsOrdered world.old.catalog }
    ensures { IsOrdered world.new.catalog }
{
    if !goes_from(alloc, &sight(&*world), false, change)? {
        return Ok(false);
    }
    make_all(alloc, world, slice::from_ref(change))?;
    Ok(true)
}

/// Makes the changes in their order.
pub fn make_all(alloc: Global, world: &mut World, changes: &[Change]) -> Result<(), Fault>
    requires { IsOrdered world.old.catalog }
    ensures { IsOrdered world.new.catalog }
{
    let World {
        catalog,
        grants,
        desk,
        instance,
    } = world;
    settle(alloc, catalog, changes)?;
    make_all_beside(alloc, grants, desk, instance, changes)
}

// What the changes are of all but the catalogue.
fn make_all_beside(
    alloc: Global,
    grants: &mut Grants,
    desk: &mut Desk,
    instance: &mut u32,
    changes: &[Change],
) -> Result<(), Fault> {
    for change in changes {
        make_beside(alloc, grants, desk, instance, change)?;
    }
    Ok(())
}

// Stages the changes in one list and settles them.
fn settle(alloc: Global, catalog: &mut Catalog, changes: &[Change]) -> Result<(), Fault>
    requires { IsOrdered catalog.old }
    ensures { IsOrdered catalog.new }
{
    let trees = trees_of(alloc, catalog.tables.as_slice(), changes)?;
    settle_with(alloc, catalog, changes, trees)
}

fn settle_with(
    alloc: Global,
    catalog: &mut Catalog,
    changes: &[Change],
    trees: Vec<Expr>,
) -> Result<(), Fault>
    requires order { IsOrdered catalog.old }
    requires trees { length trees.items ≡ length (condition_texts changes.now) }
    ensures { IsOrdered catalog.new }
{
    let staged = catalog.stage(alloc, changes, trees)?;
    catalog.settle(staged);
    Ok(())
}

// What the change is of all but the catalogue.
fn make_beside(
    alloc: Global,
    grants: &mut Grants,
    desk: &mut Desk,
    instance: &mut u32,
    change: &Change,
) -> Result<(), Fault> {
    if let Some(granted) = grant_change(change)? {
        grant(alloc, grants, &granted)?;
    }
    lay_change(alloc, desk, change)?;
    if let Change::Start(number) = change {
        *instance = *number;
    }
    Ok(())
}

// Stages the change and settles it, where there is room for one grant more.
fn grant(alloc: Global, grants: &mut Grants, change: &GrantChange) -> Result<(), Fault> {
    if grants.count() >= GRANTS {
        return Err(Fault::NoCase);
    }
    changes_add_one_grant_at_most();
    let staged = grants.stage(alloc, slice::from_ref(change))?;
    grants.settle(staged);
    Ok(())
}

// What the change is of tables and rows.
fn lay_change(alloc: Global, desk: &mut Desk, change: &Change) -> Result<(), Fault> {
    match change {
        Change::Table(name, _, key) => open_table(alloc, desk, name, key),
        Change::TableGone(name) => drop_table(desk, name),
        Change::Put(table, row, cells) => {
            let content = copy_of(alloc, cells.as_slice())?;
            lay(desk, table, *row, Some(content))
        }
        Change::Gone(table, row) => lay(desk, table, *row, None),
        _ => Ok(()),
    }
}

fn open_table(
    alloc: Global,
    desk: &mut Desk,
    table: &TableName,
    key: &List<u32>,
) -> Result<(), Fault> {
    let places = places_of(alloc, key)?;
    open_new(desk, table.clone()?, places)
}

fn places_of(alloc: Global, key: &List<u32>) -> Result<Vec<u32>, Fault> {
    let mut places = Vec::new(alloc);
    for place in key.iter() {
        places.push(*place)?;
    }
    Ok(places)
}

fn open_new(desk: &mut Desk, table: TableName, key: Vec<u32>) -> Result<(), Fault> {
    desk.reserve_rows(1)?;
    if desk.is_open(&table) {
        return Err(Fault::NoCase);
    }
    desk.open_table(table, key);
    Ok(())
}

fn drop_table(desk: &mut Desk, table: &TableName) -> Result<(), Fault> {
    desk.keep_laid();
    if !desk.is_open(table) {
        return Err(Fault::NoCase);
    }
    if !desk.is_settled(table) {
        return Err(Fault::NoCase);
    }
    desk.drop_table(table);
    Ok(())
}

fn copy_of(alloc: Global, cells: &[Cell]) -> Result<Vec<Cell>, Fault>
    ensures { IfOk result (λ copy. copy.items ≡ cells.now) }
{
    let mut copy = Vec::new(alloc);
    for cell in cells {
        copy.push(cell.clone()?)?;
    }
    Ok(copy)
}

// Lays the row, which has this content from now on, or goes.
fn lay(
    desk: &mut Desk,
    table: &TableName,
    row: RowNo,
    content: Option<Vec<Cell>>,
) -> Result<(), Fault> {
    let replay = ClientNo(0);
    desk.reserve_rows(1)?;
    if row.0 == 0 || !desk.is_open(table) {
        return Err(Fault::NoCase);
    }
    if desk.locked_row(replay, table, row) {
        return Err(Fault::NoCase);
    }
    if !desk.changes(replay).is_empty() {
        return Err(Fault::NoCase);
    }
    let there = desk.seen(replay, table, row).is_some();
    if !there && content.is_none() {
        return Err(Fault::NoCase);
    }
    desk.lay(table, row, content);
    Ok(())
}
