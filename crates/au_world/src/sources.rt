//! What is seen of the tables of FROM.
ghost use Rattle.std.specs.Prelude.{◌≡◌, ◌≢◌, IfOk, IsTrue, map};
ghost use Rattle.std.specs.List.{AllByRecursion};
ghost use Rattle.au_query.specs.Combos.{AreSoundRows, IsSoundLine, lines, views};
ghost use Rattle.au_world.specs.Inside.{AreSourcesOf, IsFoundTable, told_by};
ghost use Rattle.au_world.specs.Selecting.{seen_of};
ghost use Rattle.au_world.specs.Sights.{is_there, rows_seen, sight_of};
ghost use Rattle.au_world.specs.BuiltInTables.{kind_of as kind_named};
ghost use Rattle.au_world.specs.declared.built_in.TableKind.TheVariants.{Created};
ghost use Rattle.au_world.specs.Sound.{IsSoundFor};

use crate::World;
use crate::built_in::{TableKind, kind_of, numbered};
use crate::from_table::FromTable;
use au_base::{Cell, ClientNo, Memory, RowNo, TableName, same_is_equal};
use au_query::Source;
use std::alloc::Global;

/// The tables with the rows that the client sees of each.
pub fn sources<'a>(
    alloc: Global,
    world: &'a World<'_>,
    client: ClientNo,
    tables: &'a [FromTable],
) -> Result<Vec<Source<'a>>, Memory>
    requires sound { IsSoundFor world.now client }
    requires found { AllByRecursion (IsFoundTable world.now) tables.now }
    ensures seen { IfOk result (λ sources. AreSourcesOf (sight_of world.now client) (map (λ table. table.name) tables.now) sources.items) }
    ensures sound { IfOk result (λ sources. AreSoundRows (views sources.items)) }
{
    let mut sources = Vec::new(alloc);
    for table in tables {
        sources.push(source(alloc, world, client, table)?)?;
    }
    Ok(sources)
}

/// The table with the rows that the client sees of it.
pub fn source<'a>(
    alloc: Global,
    world: &'a World<'_>,
    client: ClientNo,
    table: &'a FromTable,
) -> Result<Source<'a>, Memory>
    requires sound { IsSoundFor world.now client }
    requires found { IsFoundTable world.now table.now }
    ensures seen { IfOk result (λ source. told_by source ≡ seen_of (sight_of world.now client) table.now.name) }
    ensures sound { IfOk result (λ source. AllByRecursion IsSoundLine (lines source.rows.items)) }
{
    let rows = rows(alloc, world, client, table)?;
    Ok(Source {
        table: table.name.clone()?,
        rows,
    })
}

fn rows<'a>(
    alloc: Global,
    world: &'a World<'_>,
    client: ClientNo,
    table: &'a FromTable,
) -> Result<Vec<(RowNo, &'a [Cell])>, Memory>
    requires sound { IsSoundFor world.now client }
    requires found { IsFoundTable world.now table.now }
    ensures seen { IfOk result (λ rows. lines rows.items ≡ rows_seen (sight_of world.now client) table.now.name) }
    ensures sound { IfOk result (λ rows. AllByRecursion IsSoundLine (lines rows.items)) }
{
    match kind_of(&table.name) {
        TableKind::Dual => built_in_rows(alloc, world, client, table),
        TableKind::Trail => built_in_rows(alloc, world, client, table),
        TableKind::Created => created_rows(alloc, world, client, &table.name),
    }
}

fn built_in_rows<'a>(
    alloc: Global,
    world: &World<'_>,
    client: ClientNo,
    table: &'a FromTable,
) -> Result<Vec<(RowNo, &'a [Cell])>, Memory>
    requires found { IsFoundTable world.now table.now }
    requires built_in { kind_named table.now.name ≢ Created }
    ensures seen { IfOk result (λ rows. lines rows.items ≡ rows_seen (sight_of world.now client) table.now.name) }
    ensures sound { IfOk result (λ rows. AllByRecursion IsSoundLine (lines rows.items)) }
{
    let rows = numbered(alloc, table.made.as_slice())?;
    Ok(rows)
}

/// The rows that the client sees of a created table.
pub fn created_rows<'a>(
    alloc: Global,
    world: &'a World<'_>,
    client: ClientNo,
    table: &TableName,
) -> Result<Vec<(RowNo, &'a [Cell])>, Memory>
    requires sound { IsSoundFor world.now client }
    requires there { IsTrue (is_there world.now.catalog.now.tables table.now) }
    requires created { kind_named table.now ≡ Created }
    ensures seen { IfOk result (λ rows. lines rows.items ≡ rows_seen (sight_of world.now client) table.now) }
    ensures sound { IfOk result (λ rows. AllByRecursion IsSoundLine (lines rows.items)) }
{
    same_is_equal();
    let view = world.desk.view(alloc, client, table)?;
    Ok(view.rows)
}
