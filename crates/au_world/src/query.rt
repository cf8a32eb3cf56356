//! SELECT and SELECT COUNT(*) over what a client sees.
ghost use Rattle.std.specs.Prelude.{◌≡◌, ◌≤◌, IfOk, IsTrue, length, map};
ghost use Rattle.std.specs.List.{AllByRecursion};
ghost use Rattle.au_audit.specs.TrailRows.{as_row as row_of};
ghost use Rattle.au_base.specs.Limits as limits;
ghost use Rattle.au_query.specs.Combos.{product_size};
ghost use Rattle.au_query.specs.Fixed.{NeverOverflows};
ghost use Rattle.au_world.specs.BuiltInTables.{kind_of, numbered};
ghost use Rattle.au_world.specs.Inside.{IsCountKey, IsFoundTable, expressions_asked, whole_of, wholes};
ghost use Rattle.au_world.specs.Selecting.{AreThere, IsAnswer, IsCountedFrom, IsCountedOver, IsQuery, IsSelectedFrom, IsSelectedOver, range_of, rows_of_seen};
ghost use Rattle.au_world.specs.declared.built_in.TableKind.TheVariants.{Trail};
ghost use Rattle.au_world.specs.Sights.{sight_of};
ghost use Rattle.au_world.specs.Sound.{AreTablesInOrder, IsSoundFor};
ghost use Rattle.sql_ast.specs.declared.statement.Statement.TheVariants as statements;

use crate::built_in::{TableKind, numbered_records};
use crate::from_table::{from_table, from_tables, range, ranges};
use crate::looking::{Asked, AskedCount, count_key, count_source, cut_sources, may_look_up};
use crate::sources::{source, sources};
use crate::{World, built_in};
use au_base::limits::FROM_TABLES;
use au_base::{Cell, ClientNo, Code, Memory, TableName, same_is_equal};
use au_expr::SessionFacts;
use au_query::{Selected, Source};
use sql_ast::{Count, Select, Statement};
use std::alloc::Global;

/// What a SELECT or a COUNT answers over what the client sees: the tables of its FROM are there, and
/// the user may read them.
pub fn select(
    alloc: Global,
    world: World<'_>,
    client: ClientNo,
    session: &SessionFacts,
    statement: &Statement,
) -> Result<Selected, Memory>
    requires sound { IsSoundFor world client }
    requires query { IsQuery statement.now }
    requires there { AreThere world.catalog.now.tables session.now.user statement.now }
    ensures { IfOk result (IsAnswer (sight_of world.entry client) session.now statement.now) }
{
    match statement {
        Statement::Select(select) => selected(alloc, &world, client, session, select),
        Statement::Count(count) => counted(alloc, &world, client, session, count),
        _ => Ok(Selected::refused(alloc, Code::NO_SUCH_TABLE)),
    }
}

fn selected(
    alloc: Global,
    world: &World<'_>,
    client: ClientNo,
    session: &SessionFacts,
    select: &Select,
) -> Result<Selected, Memory>
    requires sound { IsSoundFor world.now client }
    requires there { AreThere world.now.catalog.now.tables session.now.user (statements.Select select.now) }
    ensures { IfOk result (IsSelectedOver (sight_of world.now client) session.now select.now) }
{
    // Before any row is taken: so FROM has few tables from here on.
    if select.from.joins.len() >= FROM_TABLES {
        return Ok(Selected::refused(alloc, Code::TOO_MANY_COMBINATIONS));
    }
    let user = session.user();
    let tables = from_tables(alloc, world.records, user, &select.from)?;
    let ranges = ranges(alloc, world.catalog.tables.as_slice(), user, &select.from)?;
    let asked = Asked {
        client,
        session,
        select,
        tables: tables.as_slice(),
        ranges: ranges.as_slice(),
    };
    let selected = answered(alloc, world, &asked)?;
    Ok(selected)
}

// What the query answers over its tables, some of which may be looked up by key.
fn answered(alloc: Global, world: &World<'_>, asked: &Asked<'_>) -> Result<Selected, Memory>
    requires sound { IsSoundFor world.now asked.now.client }
    requires found { AllByRecursion (IsFoundTable world.now) asked.now.tables.now }
    requires ranges { length asked.now.ranges.now ≡ length asked.now.tables.now }
    ensures { IfOk result (IsSelectedFrom asked.now.session.now asked.now.ranges.now (wholes (sight_of world.now asked.now.client) asked.now.tables.now) asked.now.select.now) }
{
    if may_look_up(alloc, world, asked)? {
        let selected = over_parts(alloc, world, asked)?;
        return Ok(selected);
    }
    let selected = over_wholes(alloc, world, asked)?;
    Ok(selected)
}

fn over_parts(alloc: Global, world: &World<'_>, asked: &Asked<'_>) -> Result<Selected, Memory>
    requires sound { IsSoundFor world.now asked.now.client }
    requires found { AllByRecursion (IsFoundTable world.now) asked.now.tables.now }
    requires ranges { length asked.now.ranges.now ≡ length asked.now.tables.now }
    requires few { product_size (rows_of_seen (wholes (sight_of world.now asked.now.client) asked.now.tables.now)) ≤ limits.COMBINATIONS }
    requires never { NeverOverflows asked.now.session.now (expressions_asked asked.now) }
    ensures { IfOk result (IsSelectedFrom asked.now.session.now asked.now.ranges.now (wholes (sight_of world.now asked.now.client) asked.now.tables.now) asked.now.select.now) }
{
    same_is_equal();
    let sources = cut_sources(alloc, world, asked)?;
    let selected = au_query::select(
        alloc,
        sources.as_slice(),
        asked.ranges,
        asked.session,
        asked.select,
    )?;
    Ok(selected)
}

fn over_wholes(alloc: Global, world: &World<'_>, asked: &Asked<'_>) -> Result<Selected, Memory>
    requires sound { IsSoundFor world.now asked.now.client }
    requires found { AllByRecursion (IsFoundTable world.now) asked.now.tables.now }
    requires ranges { length asked.now.ranges.now ≡ length asked.now.tables.now }
    ensures { IfOk result (IsSelectedFrom asked.now.session.now asked.now.ranges.now (wholes (sight_of world.now asked.now.client) asked.now.tables.now) asked.now.select.now) }
{
    let sources = sources(alloc, world, asked.client, asked.tables)?;
    let selected = au_query::select(
        alloc,
        sources.as_slice(),
        asked.ranges,
        asked.session,
        asked.select,
    )?;
    Ok(selected)
}

// What a COUNT answers. Without WHERE no cell of the trail is looked at, so that its rows aren't
// made.
fn counted(
    alloc: Global,
    world: &World<'_>,
    client: ClientNo,
    session: &SessionFacts,
    count: &Count,
) -> Result<Selected, Memory>
    requires sound { IsSoundFor world.now client }
    requires there { AreThere world.now.catalog.now.tables session.now.user (statements.Count count.now) }
    ensures { IfOk result (IsCountedOver (sight_of world.now client) session.now count.now) }
{
    let table = count.table.table.resolved(alloc, session.user())?;
    if is_trail_alone(count, &table) {
        let selected = counted_records(alloc, world, session, table, count)?;
        return Ok(selected);
    }
    let selected = counted_rows(alloc, world, client, session, count)?;
    Ok(selected)
}

// Whether all records of the trail are counted.
fn is_trail_alone(count: &Count, table: &TableName) -> bool
    ensures condition { IsTrue result → count.now.condition ≡ None }
    ensures trail { IsTrue result → kind_of table.now ≡ Trail }
{
    match &count.condition {
        None => is_kind_trail(table),
        Some(_) => false,
    }
}

fn is_kind_trail(table: &TableName) -> bool
    ensures { IsTrue result → kind_of table.now ≡ Trail }
{
    match built_in::kind_of(table) {
        TableKind::Trail => true,
        TableKind::Dual => false,
        TableKind::Created => false,
    }
}

// How many records the trail has.
fn counted_records(
    alloc: Global,
    world: &World<'_>,
    session: &SessionFacts,
    table: TableName,
    count: &Count,
) -> Result<Selected, Memory>
    requires order { AreTablesInOrder world.now.catalog.now.tables }
    requires condition { count.now.condition ≡ None }
    requires trail { kind_of table ≡ Trail }
    ensures { IfOk result (IsCountedFrom session.now (range_of world.now.catalog.now.tables session.now.user count.now.table) (table, numbered (map row_of world.now.records.now)) count.now) }
{
    let range = range(
        alloc,
        world.catalog.tables.as_slice(),
        session.user(),
        &count.table,
    )?;
    let rows = numbered_records(alloc, world.records)?;
    let source = Source { table, rows };
    let selected = au_query::count(alloc, &source, &range, session, count)?;
    Ok(selected)
}

fn counted_rows(
    alloc: Global,
    world: &World<'_>,
    client: ClientNo,
    session: &SessionFacts,
    count: &Count,
) -> Result<Selected, Memory>
    requires sound { IsSoundFor world.now client }
    requires there { AreThere world.now.catalog.now.tables session.now.user (statements.Count count.now) }
    ensures { IfOk result (IsCountedOver (sight_of world.now client) session.now count.now) }
{
    let user = session.user();
    let table = from_table(alloc, world.records, user, &count.table)?;
    let range = range(alloc, world.catalog.tables.as_slice(), user, &count.table)?;
    let asked = AskedCount {
        client,
        session,
        count,
        table: &table,
        range: &range,
    };
    let selected = count_answered(alloc, world, &asked)?;
    Ok(selected)
}

// What the COUNT answers over its table, which may be looked up by key.
fn count_answered(
    alloc: Global,
    world: &World<'_>,
    asked: &AskedCount<'_>,
) -> Result<Selected, Memory>
    requires sound { IsSoundFor world.now asked.now.client }
    requires found { IsFoundTable world.now asked.now.table.now }
    ensures { IfOk result (IsCountedFrom asked.now.session.now asked.now.range.now (whole_of (sight_of world.now asked.now.client) asked.now.table.now) asked.now.count.now) }
{
    match count_key(alloc, world, asked)? {
        Some(key) => count_under(alloc, world, asked, key.as_slice()),
        None => count_whole(alloc, world, asked),
    }
}

fn count_under(
    alloc: Global,
    world: &World<'_>,
    asked: &AskedCount<'_>,
    key: &[Cell],
) -> Result<Selected, Memory>
    requires sound { IsSoundFor world.now asked.now.client }
    requires found { IsFoundTable world.now asked.now.table.now }
    requires key { IsCountKey world.now asked.now key.now }
    ensures { IfOk result (IsCountedFrom asked.now.session.now asked.now.range.now (whole_of (sight_of world.now asked.now.client) asked.now.table.now) asked.now.count.now) }
{
    let source = count_source(alloc, world, asked, key)?;
    let selected = au_query::count(alloc, &source, asked.range, asked.session, asked.count)?;
    Ok(selected)
}

fn count_whole(alloc: Global, world: &World<'_>, asked: &AskedCount<'_>) -> Result<Selected, Memory>
    requires sound { IsSoundFor world.now asked.now.client }
    requires found { IsFoundTable world.now asked.now.table.now }
    ensures { IfOk result (IsCountedFrom asked.now.session.now asked.now.range.now (whole_of (sight_of world.now asked.now.client) asked.now.table.now) asked.now.count.now) }
{
    let source = source(alloc, world, asked.client, asked.table)?;
    let selected = au_query::count(alloc, &source, asked.range, asked.session, asked.count)?;
    Ok(selected)
}
