//! What fits a column.
ghost use Rattle.std.specs.Prelude.{◌≡◌, ◌^◌, nat_abs, nat_le, None};
ghost use Rattle.au_base.specs.declared.cell.Cell.{Cell as Content};
ghost use Rattle.au_base.specs.declared.code.Code.{Code as Number};
ghost use Rattle.au_base.specs.declared.table.Column.{Column as Place};
ghost use Rattle.au_base.specs.Cells.{IsSoundCell};
ghost use Rattle.au_entries.specs.Lawful.{FitsColumn};
ghost use Rattle.au_expr.specs.Rows.{IsOfKind};
ghost use Rattle.au_modify.specs.Fitting as spec;

use au_base::{Cell, Code, Column};

/// The first rule that the cell breaks in the column: NULL where the column is NOT NULL, which has
/// this code; 12899; 1438. It takes no memory.
pub fn fit_code(null: Code, column: &Column, cell: &Cell) -> Option<Code>
    ensures { result ≡ spec.fit_code null column.now cell.now }
{
    if column.not_null && is_null(cell) {
        return Some(null);
    }
    if is_too_long(column, cell) {
        return Some(Code::TEXT_TOO_LONG);
    }
    if is_too_wide(column, cell) {
        return Some(Code::NUMBER_TOO_WIDE);
    }
    None
}

fn is_null(cell: &Cell) -> bool
    ensures { result ≡ spec.is_null cell.now }
{
    match cell {
        Cell::Null => true,
        _ => false,
    }
}

fn is_too_long(column: &Column, cell: &Cell) -> bool
    ensures { result ≡ spec.is_too_long column.now cell.now }
{
    match cell {
        Cell::Text(text) => (column.size as usize) < text.as_bytes().len(),
        _ => false,
    }
}

fn is_too_wide(column: &Column, cell: &Cell) -> bool
    ensures { result ≡ spec.is_too_wide column.now cell.now }
{
    match cell {
        Cell::Num(number) => has_more_digits(*number, column.size),
        _ => false,
    }
}

// Whether the number has more digits than this.
fn has_more_digits(number: i64, digits: u16) -> bool
    ensures { result ≡ nat_le (10 ^ digits) (nat_abs number) }
{
    match 10u64.checked_pow(digits as u32) {
        Some(power) => power <= number.unsigned_abs(),
        None => false,
    }
}

/// A sound cell of a column's kind that breaks no rule there fits the column, as what is kept of a
/// row has to. It does nothing, and states the law for its callers.
pub fn what_fits_is_fitting()
    ensures { (null : Number) (column : Place) (cell : Content) → spec.fit_code null column cell ≡ None
        → IsOfKind column.kind cell → IsSoundCell cell → FitsColumn column cell }
{}
