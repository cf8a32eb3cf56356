//! The two tables that no catalogue has.
ghost use Rattle.std.specs.Prelude.{◌≡◌, ◌≤◌, ◌+◌, ◌∷◌, [], IfOk, map};
ghost use Rattle.std.specs.List.{AllByRecursion};
ghost use Rattle.au_audit.specs.TrailRows as trail;
ghost use Rattle.au_audit.specs.TrailRows.{as_row as row_of};
ghost use Rattle.au_base.specs.Cells.{IsSoundCell};
ghost use Rattle.au_base.specs.Limits as limits;
ghost use Rattle.au_base.specs.Naming.{IsNameLong};
ghost use Rattle.au_query.specs.Combos.{lines};
ghost use Rattle.au_world.specs.BuiltInTables as spec;
ghost use Rattle.au_world.specs.BuiltInTables.{made_rows, numbered as numbered_rows};
ghost use Rattle.au_world.specs.Inside.{IsLong, column_of, listed_of};
ghost use Rattle.au_world.specs.Sound.{IsSoundRecord};

use au_audit::as_row;
use au_base::limits::LAST_ROW_NUMBER;
use au_base::{
    Cell, Column, ColumnKind, List, Memory, Name, RowNo, TableName, Text, same_is_equal,
};
use au_entries::Record;
use std::alloc::Global;

/// Which table a name is of.
#[derive(Clone, Copy, Debug, PartialEq, Eq)]
pub enum TableKind {
    /// SYS.DUAL.
    Dual,
    /// AUDSYS.UNIFIED_AUDIT_TRAIL.
    Trail,
    /// A table that is created, and stands in the catalogue.
    Created,
}

/// Which table the name is of. It takes no memory.
pub fn kind_of(table: &TableName) -> TableKind
    ensures { result ≡ spec.kind_of table.now }
{
    same_is_equal();
    if table.is_dual() {
        return TableKind::Dual;
    }
    if table.is_trail() {
        return TableKind::Trail;
    }
    TableKind::Created
}

/// The columns of DUAL.
pub fn dual_columns(alloc: Global) -> Result<List<Column>, Memory>
    ensures { IfOk result (λ columns. columns ≡ spec.dual_columns) }
{
    let mut columns = List::new(alloc);
    columns.push(Column {
        name: Name::from_str(alloc, "DUMMY")?,
        kind: ColumnKind::Text,
        size: 1,
        not_null: false,
    })?;
    Ok(columns)
}

/// The columns of the audit trail, in their order.
const TRAIL_COLUMNS: [(&str, ColumnKind); 14] = [
    ("AUDIT_TYPE", ColumnKind::Text),
    ("SESSIONID", ColumnKind::Number),
    ("ENTRY_ID", ColumnKind::Number),
    ("STATEMENT_ID", ColumnKind::Number),
    ("EVENT_TIMESTAMP", ColumnKind::Moment),
    ("DBUSERNAME", ColumnKind::Text),
    ("ACTION_NAME", ColumnKind::Text),
    ("OBJECT_SCHEMA", ColumnKind::Text),
    ("OBJECT_NAME", ColumnKind::Text),
    ("SQL_TEXT", ColumnKind::Text),
    ("SYSTEM_PRIVILEGE_USED", ColumnKind::Text),
    ("UNIFIED_AUDIT_POLICIES", ColumnKind::Text),
    ("FGA_POLICY_NAME", ColumnKind::Text),
    ("RETURN_CODE", ColumnKind::Number),
];

/// The columns of the audit trail.
pub fn trail_columns(alloc: Global) -> Result<List<Column>, Memory>
    ensures { IfOk result (λ columns. columns ≡ trail.trail_columns) }
{
    let columns = listed_columns(alloc, &TRAIL_COLUMNS)?;
    Ok(columns)
}

fn listed_columns(alloc: Global, columns: &[(&str, ColumnKind)]) -> Result<List<Column>, Memory>
    requires { AllByRecursion IsLong columns.now }
    ensures { IfOk result (λ listed. listed ≡ map listed_of columns.now) }
{
    let mut listed = List::new(alloc);
    for (name, kind) in columns {
        listed.push(listed_column(alloc, *name, *kind)?)?;
    }
    Ok(listed)
}

// A column as wide as one of its kind can be.
fn listed_column(alloc: Global, name: &str, kind: ColumnKind) -> Result<Column, Memory>
    requires { IsNameLong name.now }
    ensures { IfOk result (λ column. column ≡ column_of kind name.now) }
{
    match kind {
        ColumnKind::Text => text_column(alloc, name),
        ColumnKind::Number => number_column(alloc, name),
        ColumnKind::Moment => moment_column(alloc, name),
    }
}

fn text_column(alloc: Global, name: &str) -> Result<Column, Memory>
    requires { IsNameLong name.now }
    ensures { IfOk result (λ column. column ≡ trail.text_column name.now) }
{
    Ok(Column {
        name: Name::from_str(alloc, name)?,
        kind: ColumnKind::Text,
        size: 4000,
        not_null: false,
    })
}

fn number_column(alloc: Global, name: &str) -> Result<Column, Memory>
    requires { IsNameLong name.now }
    ensures { IfOk result (λ column. column ≡ trail.number_column name.now) }
{
    Ok(Column {
        name: Name::from_str(alloc, name)?,
        kind: ColumnKind::Number,
        size: 18,
        not_null: false,
    })
}

fn moment_column(alloc: Global, name: &str) -> Result<Column, Memory>
    requires { IsNameLong name.now }
    ensures { IfOk result (λ column. column ≡ trail.moment_column name.now) }
{
    Ok(Column {
        name: Name::from_str(alloc, name)?,
        kind: ColumnKind::Moment,
        size: 6,
        not_null: false,
    })
}

/// The rows that stand for the table where it is a built-in one, each with cells that a row may
/// have: that of DUAL, or each record of the trail as a row.
pub fn rows_of_built_in(
    alloc: Global,
    records: &[Record],
    table: &TableName,
) -> Result<List<List<Cell>>, Memory>
    requires { AllByRecursion IsSoundRecord records.now }
    ensures made { IfOk result (λ rows. rows ≡ made_rows records.now (spec.kind_of table.now)) }
    ensures sound { IfOk result (λ rows. AllByRecursion (AllByRecursion IsSoundCell) rows) }
{
    match kind_of(table) {
        TableKind::Dual => dual_rows(alloc),
        TableKind::Trail => trail_rows(alloc, records),
        TableKind::Created => Ok(List::new(alloc)),
    }
}

fn dual_rows(alloc: Global) -> Result<List<List<Cell>>, Memory>
    ensures made { IfOk result (λ rows. rows ≡ spec.dual_rows) }
    ensures sound { IfOk result (λ rows. AllByRecursion (AllByRecursion IsSoundCell) rows) }
{
    let mut row = List::new(alloc);
    row.push(Cell::from_text(Text::from_str(alloc, "X")?))?;
    let mut rows = List::new(alloc);
    rows.push(row)?;
    Ok(rows)
}

fn trail_rows(alloc: Global, records: &[Record]) -> Result<List<List<Cell>>, Memory>
    requires { AllByRecursion IsSoundRecord records.now }
    ensures made { IfOk result (λ rows. rows ≡ map row_of records.now) }
    ensures sound { IfOk result (λ rows. AllByRecursion (AllByRecursion IsSoundCell) rows) }
{
    let mut rows = List::new(alloc);
    for entry in records {
        rows.push(trail_row(alloc, entry)?)?;
    }
    Ok(rows)
}

// The record as a row.
fn trail_row(alloc: Global, entry: &Record) -> Result<List<Cell>, Memory>
    requires { IsSoundRecord entry.now }
    ensures made { IfOk result (λ cells. cells ≡ row_of entry.now) }
    ensures sound { IfOk result (λ cells. AllByRecursion IsSoundCell cells) }
{
    numbers_fit(entry.entry, entry.statement, entry.code.0);
    let cells = as_row(alloc, entry)?;
    Ok(List::from_vec(cells))
}

// Numbers of 32 bits have fewer than 18 digits. It does nothing, and states it for its caller.
fn numbers_fit(entry: u32, statement: u32, code: u32)
    ensures entry { entry ≤ 4_294_967_295 }
    ensures statement { statement ≤ 4_294_967_295 }
    ensures code { code ≤ 4_294_967_295 }
{}

/// The rows by their places, from 1.
pub fn numbered<'a>(
    alloc: Global,
    rows: &'a [List<Cell>],
) -> Result<Vec<(RowNo, &'a [Cell])>, Memory>
    ensures { IfOk result (λ listed. lines listed.items ≡ numbered_rows rows.now) }
{
    let mut listed = Vec::new(alloc);
    for (place, row) in rows.iter().enumerate() {
        listed.push((number_behind(place), row.as_slice()))?;
    }
    Ok(listed)
}

/// As many rows without cells as there are records, by their places, from 1.
pub fn numbered_records(
    alloc: Global,
    records: &[Record],
) -> Result<Vec<(RowNo, &'static [Cell])>, Memory>
    ensures { IfOk result (λ listed. lines listed.items ≡ numbered_rows (map (λ entry. []) records.now)) }
{
    let mut listed = Vec::new(alloc);
    for (place, _) in records.iter().enumerate() {
        listed.push((number_behind(place), no_cells()))?;
    }
    Ok(listed)
}

fn no_cells() -> &'static [Cell]
    ensures { result.now ≡ [] }
{
    &[]
}

// The number of the row behind so many others.
fn number_behind(place: usize) -> RowNo
    ensures { result ≡ spec.number_at (place + 1) }
{
    if place < LAST_ROW_NUMBER as usize {
        return RowNo(place as u32 + 1);
    }
    RowNo(LAST_ROW_NUMBER)
}
