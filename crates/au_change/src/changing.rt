//! The changes that an UPDATE makes, row by row.
ghost use Rattle.std.specs.Prelude.{◌≡◌, IfOk, MatchResult, None, Some, map};
ghost use Rattle.std.specs.List.{AllByRecursion};
ghost use Rattle.au_change.specs.Inside.{IsValued, cell_from as chosen_cell, change_of, line_code, row_from};
ghost use Rattle.au_expr.specs.Names.{first};
ghost use Rattle.au_query.specs.Combos.{lines};

use crate::rows::{cell_at, copy_of};
use crate::settings::{Setting, given};
use au_base::{Cell, Code, List, Memory, RowNo, TableName};
use au_expr::SessionFacts;
use au_txn::RowChange;
use std::alloc::Global;

/// What an UPDATE sets of the rows of its table: the settings, and which of them sets each column.
#[derive(Clone, Copy)]
pub struct Sets<'q, 's, 'c, 'o> {
    pub table: &'q TableName,
    pub session: &'q SessionFacts,
    pub settings: &'s [Setting<'c>],
    pub sources: &'o [Option<usize>],
}

/// A change of each row; or the first rule that a row breaks.
pub(crate) fn changes(
    alloc: Global,
    sets: &Sets<'_, '_, '_, '_>,
    rows: &[(RowNo, &[Cell])],
) -> Result<Result<List<RowChange>, Code>, Memory>
    requires valued { AllByRecursion IsValued sets.now.settings.now }
    ensures { IfOk result (λ found. MatchResult found
        (λ changes. (first (map (line_code sets.now.session.now sets.now.settings.now) (lines rows.now)) ≡ None) × (changes ≡ map (change_of sets.now.table.now sets.now.session.now sets.now.sources.now sets.now.settings.now) (lines rows.now)))
        (λ code. first (map (line_code sets.now.session.now sets.now.settings.now) (lines rows.now)) ≡ Some code)) }
{
    let mut changes = List::new(alloc);
    for (row, cells) in rows {
        match change(alloc, sets, *row, *cells)? {
            Ok(change) => changes.push(change)?,
            Err(code) => return Ok(Err(code)),
        }
    }
    Ok(Ok(changes))
}

fn change(
    alloc: Global,
    sets: &Sets<'_, '_, '_, '_>,
    row: RowNo,
    cells: &[Cell],
) -> Result<Result<RowChange, Code>, Memory>
    requires valued { AllByRecursion IsValued sets.now.settings.now }
    ensures { IfOk result (λ found. MatchResult found
        (λ change. (line_code sets.now.session.now sets.now.settings.now (row, cells.now) ≡ None) × (change ≡ change_of sets.now.table.now sets.now.session.now sets.now.sources.now sets.now.settings.now (row, cells.now)))
        (λ code. line_code sets.now.session.now sets.now.settings.now (row, cells.now) ≡ Some code)) }
{
    match given(alloc, sets.settings, sets.session, cells)? {
        Ok(given) => Ok(Ok(RowChange {
            table: sets.table.clone()?,
            row,
            old: Some(copy_of(alloc, cells)?),
            new: Some(set_row(alloc, given.as_slice(), sets.sources, cells)?),
        })),
        Err(code) => Ok(Err(code)),
    }
}

// The row with the cells that are given.
fn set_row(
    alloc: Global,
    given: &[Cell],
    sources: &[Option<usize>],
    cells: &[Cell],
) -> Result<List<Cell>, Memory>
    ensures { IfOk result (λ row. row ≡ row_from given.now sources.now cells.now) }
{
    let mut row = List::new(alloc);
    for (at, source) in sources.iter().enumerate() {
        if let Some(cell) = cell_at(cells, at) {
            row.push(cell_from(given, cell, *source)?)?;
        }
    }
    Ok(row)
}

fn cell_from(given: &[Cell], cell: &Cell, source: Option<usize>) -> Result<Cell, Memory>
    ensures { IfOk result (λ content. content ≡ chosen_cell given.now cell.now source) }
{
    match source {
        Some(at) => match cell_at(given, at) {
            Some(found) => Ok(found.clone()?),
            None => Ok(cell.clone()?),
        },
        None => Ok(cell.clone()?),
    }
}
