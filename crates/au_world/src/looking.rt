//! Tables of FROM whose key the conditions of a query fix: of these the row under the key is taken
//! alone, at a cost that doesn't grow with the table.
ghost use Rattle.std.specs.Prelude.{◌≡◌, ◌≤◌, ◌*◌, ◌∷◌, [], ℕ, IfOk, IfSome, IsTrue, Some, false, map};
ghost use Rattle.std.specs.List.{AllByRecursion, slice_get};
ghost use Rattle.au_base.specs.Limits as limits;
ghost use Rattle.au_base.specs.declared.numbers.ClientNo.{ClientNo as Client};
ghost use Rattle.au_query.specs.Combos.{AreSoundRows, IsSoundLine, lines, product_size, rows_of, views};
ghost use Rattle.au_query.specs.Fixed.{NeverOverflows};
ghost use Rattle.au_world.specs.BuiltInTables.{kind_of as kind_named};
ghost use Rattle.au_world.specs.Cutting.{AreParts, IsCut, IsPart};
ghost use Rattle.au_world.specs.Inside.{AreUnder, IsFixedAlone, IsFoundTable, IsCountKey, IsKeyFixed, condition_asked, conditions_asked, expressions_asked, names_in, told_by, where_asked, whole_of, wholes};
ghost use Rattle.au_world.specs.Selecting.{rows_of_seen};
ghost use Rattle.au_world.specs.Sights.{rows_seen, sight_of};
ghost use Rattle.au_world.specs.Sound.{AreTablesInOrder, IsSoundFor};
ghost use Rattle.au_world.specs.declared.built_in.TableKind.TheVariants.{Created};
ghost use Rattle.std.specs.Prelude.{length};

use crate::World;
use crate::built_in::{TableKind, kind_of};
use crate::finding::table_named;
use crate::from_table::FromTable;
use crate::sources::source;
use au_base::limits::COMBINATIONS;
use au_base::{
    Cell, ClientNo, Column, List, Memory, Name, RowNo, TableName, is_same_table, same_is_equal,
};
use au_expr::SessionFacts;
use au_query::{Source, count_never_overflows, fixed_by_where, fixed_cells, never_overflows};
use au_txn::{laid_rows_answer, rows_are_what_they_answer, rows_stand_by_tables};
use sql_ast::{Count, Expr, Select};
use std::alloc::Global;

/// A SELECT of a client, with the tables of its FROM and their ranges.
#[derive(Clone, Copy)]
pub struct Asked<'q> {
    pub client: ClientNo,
    pub session: &'q SessionFacts,
    pub select: &'q Select,
    pub tables: &'q [FromTable],
    pub ranges: &'q [(Name, List<Column>)],
}

/// Whether tables may be looked up by key: no expression of the query can overflow, also over rows
/// that aren't looked at, and the whole tables have no more combinations than a query goes over.
pub fn may_look_up(alloc: Global, world: &World<'_>, asked: &Asked<'_>) -> Result<bool, Memory>
    requires found { AllByRecursion (IsFoundTable world.now) asked.now.tables.now }
    ensures few { IfOk result (λ may. IsTrue may → product_size (rows_of_seen (wholes (sight_of world.now asked.now.client) asked.now.tables.now)) ≤ limits.COMBINATIONS) }
    ensures never { IfOk result (λ may. IsTrue may → NeverOverflows asked.now.session.now (expressions_asked asked.now)) }
{
    match most_combinations(world, asked.client, asked.tables) {
        Some(_) => {
            let never = never_overflows(alloc, asked.select, asked.ranges)?;
            Ok(never)
        }
        None => Ok(false),
    }
}

// No fewer combinations than the client sees. `None` where they may be more than a query goes over.
fn most_combinations(world: &World<'_>, client: ClientNo, tables: &[FromTable]) -> Option<u64>
    requires found { AllByRecursion (IsFoundTable world.now) tables.now }
    ensures most { IfSome result (λ most. product_size (rows_of_seen (wholes (sight_of world.now client) tables.now)) ≤ most) }
    ensures few { IfSome result (λ most. most ≤ limits.COMBINATIONS) }
{
    match tables.split_first() {
        None => Some(1),
        Some((table, rest)) => times(
            most_rows(world, client, table),
            most_combinations(world, client, rest),
        ),
    }
}

fn times(rows: u64, rest: Option<u64>) -> Option<u64>
    ensures most { (m n : ℕ) → m ≤ rows → IfSome rest (λ most. n ≤ most) → IfSome result (λ most. m * n ≤ most) }
    ensures few { IfSome result (λ most. most ≤ limits.COMBINATIONS) }
{
    let Some(rest) = rest else {
        return None;
    };
    match rows.checked_mul(rest) {
        Some(most) if most <= COMBINATIONS => Some(most),
        _ => None,
    }
}

// No fewer rows than the client sees of the table. It takes no memory, and doesn't go over them.
fn most_rows(world: &World<'_>, client: ClientNo, table: &FromTable) -> u64
    requires found { IsFoundTable world.now table.now }
    ensures { length (rows_seen (sight_of world.now client) table.now.name) ≤ result }
{
    match kind_of(&table.name) {
        TableKind::Created => most_created(world, client, &table.name),
        _ => table.made.len() as u64,
    }
}

fn most_created(world: &World<'_>, client: ClientNo, table: &TableName) -> u64
    requires created { kind_named table.now ≡ Created }
    ensures { length (rows_seen (sight_of world.now client) table.now) ≤ result }
{
    same_is_equal();
    laid_rows_answer();
    rows_are_what_they_answer();
    rows_stand_by_tables();
    world.desk.holds_together();
    world.desk.numbers(table).0 as u64
}

/// The tables of FROM as the client sees them; of one whose key is fixed, no row that isn't under it.
pub fn cut_sources<'a>(
    alloc: Global,
    world: &'a World<'_>,
    asked: &Asked<'a>,
) -> Result<Vec<Source<'a>>, Memory>
    requires sound { IsSoundFor world.now asked.now.client }
    requires found { AllByRecursion (IsFoundTable world.now) asked.now.tables.now }
    ensures parts { IfOk result (λ sources. AreParts asked.now.session.now (conditions_asked asked.now) (wholes (sight_of world.now asked.now.client) asked.now.tables.now) (map told_by sources.items)) }
    ensures sound { IfOk result (λ sources. AreSoundRows (views sources.items)) }
{
    let mut sources = Vec::new(alloc);
    for (place, table) in asked.tables.iter().enumerate() {
        sources.push(cut_source(alloc, world, asked, place, table)?)?;
    }
    Ok(sources)
}

// The table at this place of FROM.
fn cut_source<'a>(
    alloc: Global,
    world: &'a World<'_>,
    asked: &Asked<'a>,
    place: usize,
    table: &'a FromTable,
) -> Result<Source<'a>, Memory>
    requires sound { IsSoundFor world.now asked.now.client }
    requires found { IsFoundTable world.now table.now }
    ensures part { IfOk result (λ source. IsPart asked.now.session.now (conditions_asked asked.now) (names_in asked.now.tables.now) (place, whole_of (sight_of world.now asked.now.client) table.now) (told_by source)) }
    ensures sound { IfOk result (λ source. AllByRecursion IsSoundLine (lines source.rows.items)) }
{
    match key_of(alloc, world, asked, place, &table.name)? {
        Some(key) => keyed_source(alloc, world, asked, place, table, key.as_slice()),
        None => source(alloc, world, asked.client, table),
    }
}

// The table whose key is fixed.
fn keyed_source<'a>(
    alloc: Global,
    world: &'a World<'_>,
    asked: &Asked<'a>,
    place: usize,
    table: &'a FromTable,
    key: &[Cell],
) -> Result<Source<'a>, Memory>
    requires sound { IsSoundFor world.now asked.now.client }
    requires found { IsFoundTable world.now table.now }
    requires key { IsKeyFixed asked.now.session.now (conditions_asked asked.now) (names_in asked.now.tables.now) place world.now.desk.now.tables table.now.name key.now }
    ensures part { IfOk result (λ source. IsPart asked.now.session.now (conditions_asked asked.now) (names_in asked.now.tables.now) (place, whole_of (sight_of world.now asked.now.client) table.now) (told_by source)) }
    ensures sound { IfOk result (λ source. AllByRecursion IsSoundLine (lines source.rows.items)) }
{
    same_is_equal();
    rows_are_what_they_answer();
    rows_stand_by_tables();
    world.desk.holds_together();
    source_under(alloc, world, asked.client, &table.name, key)
}

/// The table with the one row that the client sees of it under the key, or with none.
pub fn source_under<'a>(
    alloc: Global,
    world: &'a World<'_>,
    client: ClientNo,
    table: &TableName,
    key: &[Cell],
) -> Result<Source<'a>, Memory>
    ensures table { IfOk result (λ source. source.table ≡ table.now) }
    ensures rows { IfOk result (λ source. AreUnder world.now.desk.now client table.now key.now (rows_of source)) }
{
    Ok(Source {
        table: table.clone()?,
        rows: rows_under(alloc, world, client, table, key)?,
    })
}

/// The one row that the client sees of the table under the key, or none.
pub fn rows_under<'a>(
    alloc: Global,
    world: &'a World<'_>,
    client: ClientNo,
    table: &TableName,
    key: &[Cell],
) -> Result<Vec<(RowNo, &'a [Cell])>, Memory>
    ensures { IfOk result (λ rows. AreUnder world.now.desk.now client table.now key.now (lines rows.items)) }
{
    match world.desk.under(client, table, key) {
        Some(row) => {
            let mut rows = Vec::new(alloc);
            rows.push(row)?;
            Ok(rows)
        }
        None => Ok(Vec::new(alloc)),
    }
}

// The key to which the conditions fix the table at this place.
fn key_of(
    alloc: Global,
    world: &World<'_>,
    asked: &Asked<'_>,
    place: usize,
    table: &TableName,
) -> Result<Option<Vec<Cell>>, Memory>
    requires sound { IsSoundFor world.now asked.now.client }
    ensures { IfOk result (λ found. IfSome found (λ key. IsKeyFixed asked.now.session.now (conditions_asked asked.now) (names_in asked.now.tables.now) place world.now.desk.now.tables table.now key.items)) }
{
    match kind_of(table) {
        TableKind::Created => created_key(alloc, world, asked, place, table),
        _ => Ok(None),
    }
}

fn created_key(
    alloc: Global,
    world: &World<'_>,
    asked: &Asked<'_>,
    place: usize,
    table: &TableName,
) -> Result<Option<Vec<Cell>>, Memory>
    requires sound { IsSoundFor world.now asked.now.client }
    requires created { kind_named table.now ≡ Created }
    ensures { IfOk result (λ found. IfSome found (λ key. IsKeyFixed asked.now.session.now (conditions_asked asked.now) (names_in asked.now.tables.now) place world.now.desk.now.tables table.now key.items)) }
{
    same_is_equal();
    match table_named(world.catalog.tables.as_slice(), table) {
        Some(found) => fixed_alone(alloc, asked, place, table, found.key.as_slice()),
        None => Ok(None),
    }
}

// The cells to which the conditions fix these columns of the table, where they are some and it
// stands nowhere else in FROM. Of a table that stands twice, rows that can't take part at one place
// may take part at the other.
fn fixed_alone(
    alloc: Global,
    asked: &Asked<'_>,
    place: usize,
    table: &TableName,
    columns: &[u32],
) -> Result<Option<Vec<Cell>>, Memory>
    ensures { IfOk result (λ found. IfSome found (λ key. IsFixedAlone asked.now.session.now (conditions_asked asked.now) (names_in asked.now.tables.now) place table.now columns.now key.items)) }
{
    if columns.is_empty() {
        return Ok(None);
    }
    if !is_alone(asked.tables, place, table) {
        return Ok(None);
    }
    let found = fixed_cells(
        alloc,
        asked.select,
        asked.ranges,
        asked.session,
        place,
        columns,
    )?;
    Ok(found)
}

// Whether the table stands at no other place of FROM.
fn is_alone(tables: &[FromTable], place: usize, name: &TableName) -> bool
    ensures { IsTrue result → (other : ℕ) → slice_get (names_in tables.now) other ≡ Some name.now → other ≡ place }
{
    for (other, table) in tables.iter().enumerate() {
        if is_elsewhere(other, place, &table.name, name) {
            return false;
        }
    }
    true
}

fn is_elsewhere(other: usize, place: usize, found: &TableName, name: &TableName) -> bool
    ensures { result ≡ false → found.now ≡ name.now → other ≡ place }
{
    same_is_equal();
    if other == place {
        return false;
    }
    is_same_table(found, name)
}

/// A COUNT of a client, with its table and the table's range.
#[derive(Clone, Copy)]
pub struct AskedCount<'q> {
    pub client: ClientNo,
    pub session: &'q SessionFacts,
    pub count: &'q Count,
    pub table: &'q FromTable,
    pub range: &'q (Name, List<Column>),
}

/// The key to which WHERE of a COUNT fixes its table, where it may be looked up by it: as for a
/// SELECT.
pub fn count_key(
    alloc: Global,
    world: &World<'_>,
    asked: &AskedCount<'_>,
) -> Result<Option<Vec<Cell>>, Memory>
    requires sound { IsSoundFor world.now asked.now.client }
    requires found { IsFoundTable world.now asked.now.table.now }
    ensures { IfOk result (λ found. IfSome found (λ key. IsCountKey world.now asked.now key.items)) }
{
    if most_rows(world, asked.client, asked.table) > COMBINATIONS {
        return Ok(None);
    }
    if !count_never_overflows(alloc, asked.count, asked.range)? {
        return Ok(None);
    }
    let condition = AskedWhere {
        client: asked.client,
        session: asked.session,
        table: &asked.table.name,
        range: asked.range,
        condition: &asked.count.condition,
    };
    let found = key_by_where(alloc, world, &condition)?;
    Ok(found)
}

/// WHERE of a statement of a client over one table, with the table's range.
#[derive(Clone, Copy)]
pub struct AskedWhere<'q> {
    pub client: ClientNo,
    pub session: &'q SessionFacts,
    pub table: &'q TableName,
    pub range: &'q (Name, List<Column>),
    pub condition: &'q Option<Expr>,
}

/// The key to which WHERE fixes its table.
pub fn key_by_where(
    alloc: Global,
    world: &World<'_>,
    asked: &AskedWhere<'_>,
) -> Result<Option<Vec<Cell>>, Memory>
    requires sound { IsSoundFor world.now asked.now.client }
    ensures { IfOk result (λ found. IfSome found (λ key. IsKeyFixed asked.now.session.now (where_asked asked.now) (asked.now.table.now ∷ []) 0 world.now.desk.now.tables asked.now.table.now key.items)) }
{
    match kind_of(asked.table) {
        TableKind::Created => created_key_by_where(alloc, world, asked),
        _ => Ok(None),
    }
}

fn created_key_by_where(
    alloc: Global,
    world: &World<'_>,
    asked: &AskedWhere<'_>,
) -> Result<Option<Vec<Cell>>, Memory>
    requires sound { IsSoundFor world.now asked.now.client }
    requires created { kind_named asked.now.table.now ≡ Created }
    ensures { IfOk result (λ found. IfSome found (λ key. IsKeyFixed asked.now.session.now (where_asked asked.now) (asked.now.table.now ∷ []) 0 world.now.desk.now.tables asked.now.table.now key.items)) }
{
    same_is_equal();
    match table_named(world.catalog.tables.as_slice(), asked.table) {
        Some(found) => columns_by_where(alloc, asked, found.key.as_slice()),
        None => Ok(None),
    }
}

fn columns_by_where(
    alloc: Global,
    asked: &AskedWhere<'_>,
    columns: &[u32],
) -> Result<Option<Vec<Cell>>, Memory>
    ensures { IfOk result (λ found. IfSome found (λ key. IsFixedAlone asked.now.session.now (where_asked asked.now) (asked.now.table.now ∷ []) 0 asked.now.table.now columns.now key.items)) }
{
    if columns.is_empty() {
        return Ok(None);
    }
    let found = fixed_by_where(alloc, asked.condition, asked.range, asked.session, columns)?;
    Ok(found)
}

/// The table of a COUNT whose key is fixed: of its rows, the one under the key.
pub fn count_source<'a>(
    alloc: Global,
    world: &'a World<'_>,
    asked: &AskedCount<'a>,
    key: &[Cell],
) -> Result<Source<'a>, Memory>
    requires sound { IsSoundFor world.now asked.now.client }
    requires found { IsFoundTable world.now asked.now.table.now }
    requires key { IsCountKey world.now asked.now key.now }
    ensures cut { IfOk result (λ source. IsCut asked.now.session.now (condition_asked asked.now) (asked.now.table.now.name ∷ []) 0 (whole_of (sight_of world.now asked.now.client) asked.now.table.now) (told_by source)) }
    ensures sound { IfOk result (λ source. AllByRecursion IsSoundLine (lines source.rows.items)) }
    ensures whole { AllByRecursion IsSoundLine (rows_seen (sight_of world.now asked.now.client) asked.now.table.now.name) }
{
    same_is_equal();
    rows_are_what_they_answer();
    rows_stand_by_tables();
    world.desk.holds_together();
    source_under(alloc, world, asked.client, &asked.table.name, key)
}
