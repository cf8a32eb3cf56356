//! Rows that fit their columns.
ghost use Rattle.std.specs.Prelude.{◌≡◌, ◌≢◌, ◌↔◌, ◌<◌, ◌≤◌, ◌^◌, [], IsTrue, length, nat_abs};
ghost use Rattle.au_base.specs.declared.table.ColumnKind.TheVariants as kinds;
ghost use Rattle.au_entries.specs.Lawful.{FitColumns, FitsColumn};

use au_base::{Cell, Column, ColumnKind, LAST_MOMENT, Text};

/// The decimal digits of the largest number of 64 bits without a sign.
const DIGITS: u16 = 20;

/// Whether each cell fits the column at its place, and there are as many cells as columns: NULL in
/// no column that is NOT NULL, a number with no more digits than the column, a text with no more
/// bytes and not an empty one, a moment that isn't over the last one.
pub fn fits(columns: &[Column], cells: &[Cell]) -> bool
    ensures { IsTrue result ↔ FitColumns columns.now cells.now }
{
    if columns.len() != cells.len() {
        return false;
    }
    for at in 0..columns.len() {
        if !fits_column(&columns[at], &cells[at]) {
            return false;
        }
    }
    true
}

fn fits_column(column: &Column, cell: &Cell) -> bool
    ensures { IsTrue result ↔ FitsColumn column.now cell.now }
{
    match cell {
        Cell::Null => !column.not_null,
        Cell::Num(number) => is_number(column.kind) && has_digits(*number, column.size),
        Cell::Text(text) => is_text(column.kind) && has_bytes(text, column.size),
        Cell::Moment(moment) => is_moment(column.kind) && *moment <= LAST_MOMENT,
    }
}

fn is_number(kind: ColumnKind) -> bool
    ensures { IsTrue result ↔ (kind ≡ kinds.Number) }
{
    matches!(kind, ColumnKind::Number)
}

fn is_text(kind: ColumnKind) -> bool
    ensures { IsTrue result ↔ (kind ≡ kinds.Text) }
{
    matches!(kind, ColumnKind::Text)
}

fn is_moment(kind: ColumnKind) -> bool
    ensures { IsTrue result ↔ (kind ≡ kinds.Moment) }
{
    matches!(kind, ColumnKind::Moment)
}

// Whether the text isn't empty, and has no more bytes than this.
fn has_bytes(text: &Text, size: u16) -> bool
    ensures { IsTrue result ↔ ((text.now ≢ []) × (length text.now ≤ size)) }
{
    let bytes = text.as_bytes();
    !bytes.is_empty() && bytes.len() <= size as usize
}

// Whether the number has no more digits than this.
fn has_digits(number: i64, size: u16) -> bool
    ensures { IsTrue result ↔ (nat_abs number < 10 ^ size) }
{
    if size >= DIGITS {
        return true;
    }
    number.unsigned_abs() < 10u64.pow(size as u32)
}
