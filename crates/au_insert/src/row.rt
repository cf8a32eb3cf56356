//! The new row of an INSERT.
ghost use Rattle.std.specs.Prelude.{◌≡◌, IfOk};
ghost use Rattle.std.specs.List.{zip};
ghost use Rattle.au_base.specs.declared.cell.Cell.TheVariants as cells_of;
ghost use Rattle.au_insert.specs.Inserting as spec;
ghost use Rattle.au_insert.specs.Inside.{MakesRow, fits, given_row, listed_code, written_code};
ghost use Rattle.au_modify.specs.Columns as columns_spec;
ghost use Rattle.au_modify.specs.Targets.{given_or};

use crate::values::given_cells;
use au_base::{Cell, Code, Column, List, Memory, Name};
use au_expr::SessionFacts;
use au_modify::{
    fit_code, kinds_are_told_one_by_one, kinds_refusal, names_refusal, target_refusal,
    targets_are_columns,
};
use sql_ast::{Expr, Insert};
use std::alloc::Global;

/// A row that comes, and the columns that get values.
#[derive(Debug, Drop)]
pub struct NewRow {
    pub cells: List<Cell>,
    pub named: List<Name>,
}

/// The row that an INSERT makes for a table with these columns; or the code of the first rule that
/// its columns and values break.
pub fn new_row(
    alloc: Global,
    session: &SessionFacts,
    columns: &[Column],
    insert: &Insert,
) -> Result<Result<NewRow, Code>, Memory>
    ensures { IfOk result (MakesRow session.now columns.now insert.now) }
{
    let named = targets(alloc, columns, insert)?;
    let values = insert.values.as_slice();
    if let Some(code) = written_code(columns, named.as_slice(), values) {
        return Ok(Err(code));
    }
    kinds_are_told_one_by_one();
    targets_are_columns();
    match given_cells(alloc, session, values)? {
        Some(given) => {
            let cells = given_row(alloc, columns, named.as_slice(), given.as_slice())?;
            match row_code(columns, cells.as_slice()) {
                Some(code) => Ok(Err(code)),
                None => Ok(Ok(NewRow { cells, named })),
            }
        }
        None => Ok(Err(Code::OVERFLOW)),
    }
}

// The columns that get values.
fn targets(alloc: Global, columns: &[Column], insert: &Insert) -> Result<List<Name>, Memory>
    ensures { IfOk result (λ names. names ≡ spec.targets columns.now insert.now) }
{
    match &insert.columns {
        Some(names) => Ok(names.clone()?),
        None => names_of(alloc, columns),
    }
}

fn names_of(alloc: Global, columns: &[Column]) -> Result<List<Name>, Memory>
    ensures { IfOk result (λ names. names ≡ columns_spec.names_of columns.now) }
{
    let mut names = List::new(alloc);
    for column in columns {
        names.push(column.name.clone()?)?;
    }
    Ok(names)
}

// What is refused before the values are evaluated.
fn written_code(columns: &[Column], names: &[Name], values: &[Expr]) -> Option<Code>
    ensures { result ≡ written_code columns.now names.now values.now }
{
    if let Some(code) = listed_code(columns, names, values.len()) {
        return Some(code);
    }
    if let Some(code) = names_refusal(&[], values) {
        return Some(code);
    }
    kinds_refusal(&[], columns, names, values)
}

fn listed_code(columns: &[Column], names: &[Name], values: usize) -> Option<Code>
    ensures { result ≡ listed_code columns.now names.now values }
{
    if let Some(code) = target_refusal(columns, names) {
        return Some(code);
    }
    if names.len() < values {
        return Some(Code::TOO_MANY_VALUES);
    }
    if values < names.len() {
        return Some(Code::TOO_FEW_VALUES);
    }
    None
}

// Of each column the cell that is given for it, and NULL where none is.
fn given_row(
    alloc: Global,
    columns: &[Column],
    names: &[Name],
    given: &[Cell],
) -> Result<List<Cell>, Memory>
    ensures { IfOk result (λ cells. cells ≡ given_row columns.now names.now given.now) }
{
    let mut cells = List::new(alloc);
    for column in columns {
        cells.push(cell_for(column, names, given)?)?;
    }
    Ok(cells)
}

fn cell_for(column: &Column, names: &[Name], given: &[Cell]) -> Result<Cell, Memory>
    ensures { IfOk result (λ cell. cell ≡ given_or cells_of.Null (zip names.now given.now) column.now) }
{
    for (place, name) in names.iter().enumerate() {
        if place < given.len() && *name == column.name {
            return Ok(given[place].clone()?);
        }
    }
    Ok(Cell::Null)
}

// The first column that its cell doesn't fit.
fn row_code(columns: &[Column], cells: &[Cell]) -> Option<Code>
    ensures { result ≡ fits columns.now cells.now }
{
    for (place, column) in columns.iter().enumerate() {
        if place >= cells.len() {
            return None;
        }
        if let Some(code) = fit_code(Code::NULL_INSERTED, column, &cells[place]) {
            return Some(code);
        }
    }
    None
}
