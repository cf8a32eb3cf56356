//! The tables of FROM.
ghost use Rattle.std.specs.Prelude.{◌≡◌, ◌++◌, IfOk, OnOk, map};
ghost use Rattle.std.specs.List.{AllByRecursion};
ghost use Rattle.au_query.specs.Queries.{name_or};
ghost use Rattle.au_world.specs.Inside.{IsMade};
ghost use Rattle.au_world.specs.Selecting as spec;
ghost use Rattle.au_world.specs.Selecting.{joined_tables, meant, tables_in};
ghost use Rattle.au_world.specs.Sound.{AreTablesInOrder, IsSoundRecord};

use crate::built_in::rows_of_built_in;
use crate::columns::columns_of;
use au_base::{Cell, Column, List, Memory, Name, TableName};
use au_entries::{Record, Table};
use sql_ast::{AliasedTable, FromClause, Join};
use std::alloc::Global;

/// A table of FROM, and the rows that stand for it where it is a built-in one.
#[derive(Drop)]
pub struct FromTable {
    pub name: TableName,
    pub made: List<List<Cell>>,
}

/// The tables of FROM, the first first.
pub fn from_tables(
    alloc: Global,
    records: &[Record],
    user: &Name,
    from: &FromClause,
) -> Result<Vec<FromTable>, Memory>
    requires { AllByRecursion IsSoundRecord records.now }
    ensures names { IfOk result (λ tables. map (λ table. table.name) tables.items ≡ map (meant user.now) (tables_in from.now)) }
    ensures made { IfOk result (λ tables. AllByRecursion (IsMade records.now) tables.items) }
{
    let mut tables = Vec::new(alloc);
    tables.push(from_table(alloc, records, user, &from.first)?)?;
    push_tables(alloc, &mut tables, records, user, from.joins.as_slice())?;
    Ok(tables)
}

fn push_tables(
    alloc: Global,
    tables: &mut Vec<FromTable>,
    records: &[Record],
    user: &Name,
    joins: &[Join],
) -> Result<(), Memory>
    requires records { AllByRecursion IsSoundRecord records.now }
    requires made { AllByRecursion (IsMade records.now) tables.old.items }
    ensures names { OnOk result (map (λ table. table.name) tables.new.items ≡ map (λ table. table.name) tables.old.items ++ map (meant user.now) (joined_tables joins.now)) }
    ensures made { OnOk result (AllByRecursion (IsMade records.now) tables.new.items) }
{
    for join in joins {
        tables.push(from_table(alloc, records, user, &join.table)?)?;
    }
    Ok(())
}

/// The table that the user means.
pub fn from_table(
    alloc: Global,
    records: &[Record],
    user: &Name,
    table: &AliasedTable,
) -> Result<FromTable, Memory>
    requires { AllByRecursion IsSoundRecord records.now }
    ensures name { IfOk result (λ found. found.name ≡ meant user.now table.now) }
    ensures made { IfOk result (IsMade records.now) }
{
    let name = table.table.resolved(alloc, user)?;
    let made = rows_of_built_in(alloc, records, &name)?;
    Ok(FromTable { name, made })
}

/// The name and the columns of each table of FROM.
pub fn ranges(
    alloc: Global,
    tables: &[Table],
    user: &Name,
    from: &FromClause,
) -> Result<Vec<(Name, List<Column>)>, Memory>
    requires order { AreTablesInOrder tables.now }
    ensures { IfOk result (λ ranges. ranges.items ≡ map (spec.range_of tables.now user.now) (tables_in from.now)) }
{
    let mut ranges = Vec::new(alloc);
    ranges.push(range(alloc, tables, user, &from.first)?)?;
    push_ranges(alloc, &mut ranges, tables, user, from.joins.as_slice())?;
    Ok(ranges)
}

fn push_ranges(
    alloc: Global,
    ranges: &mut Vec<(Name, List<Column>)>,
    tables: &[Table],
    user: &Name,
    joins: &[Join],
) -> Result<(), Memory>
    requires order { AreTablesInOrder tables.now }
    ensures { OnOk result (ranges.new.items ≡ ranges.old.items ++ map (spec.range_of tables.now user.now) (joined_tables joins.now)) }
{
    for join in joins {
        ranges.push(range(alloc, tables, user, &join.table)?)?;
    }
    Ok(())
}

/// The table's alias where it has one, or else its name, and its columns.
pub fn range(
    alloc: Global,
    tables: &[Table],
    user: &Name,
    table: &AliasedTable,
) -> Result<(Name, List<Column>), Memory>
    requires order { AreTablesInOrder tables.now }
    ensures { IfOk result (λ range. range ≡ spec.range_of tables.now user.now table.now) }
{
    let name = range_name(table)?;
    let meant = table.table.resolved(alloc, user)?;
    Ok((name, columns_of(alloc, tables, &meant)?))
}

fn range_name(table: &AliasedTable) -> Result<Name, Memory>
    ensures { IfOk result (λ name. name ≡ name_or table.now.table.name table.now.alias) }
{
    match &table.alias {
        Some(alias) => Ok(alias.clone()?),
        None => Ok(table.table.name.clone()?),
    }
}
