//! Cells, and how they compare.
ghost use Rattle.std.specs.Prelude.{◌≡◌, ◌↔◌, IfOk, IsTrue};
ghost use Rattle.au_base.specs.Cells.{IsSoundCell, comparison, text_cell};

use crate::arithmetic::fits_digits;
use crate::{LAST_MOMENT, Text};
use std::alloc::AllocError;
use std::cmp::Ordering;

/// The content of one column of one row.
#[derive(Debug, Drop, PartialEq, Eq)]
pub enum Cell {
    /// NULL, which the empty text is too.
    Null,
    /// A whole number of up to 18 digits.
    Num(i64),
    /// A text that isn't empty.
    Text(Text),
    /// Microseconds since 1970-01-01 00:00:00 UTC, up to the last moment of the year 9999.
    Moment(u64),
}

impl Cell {
    /// The cell of a text: NULL where it is empty. It takes no memory.
    pub fn from_text(text: Text) -> Cell
        ensures value { result ≡ text_cell text }
        ensures sound { IsSoundCell result }
    {
        if text.as_bytes().is_empty() {
            return Cell::Null;
        }
        Cell::Text(text)
    }

    /// Whether it is a cell that a row, a value or a reply may have: a number of at most 18 digits,
    /// a text that isn't empty, or a moment that isn't over the last one.
    pub fn is_sound(&self) -> bool
        ensures { IsTrue result ↔ IsSoundCell self.now }
    {
        match self {
            Cell::Null => true,
            Cell::Num(number) => fits_digits(*number),
            Cell::Text(text) => !text.as_bytes().is_empty(),
            Cell::Moment(moment) => *moment <= LAST_MOMENT,
        }
    }
}

impl Clone for Cell {
    ghost is_clone = { λ cell copy. copy ≡ cell };

    fn clone(&self) -> Result<Self, AllocError> {
        match self {
            Cell::Null => Ok(Cell::Null),
            Cell::Num(number) => Ok(Cell::Num(*number)),
            Cell::Text(text) => Ok(Cell::Text(text.clone()?)),
            Cell::Moment(moment) => Ok(Cell::Moment(*moment)),
        }
    }
}

/// How two cells compare: numbers and moments as numbers, texts by bytes. `None` exactly where one
/// is Null or the kinds differ (SQL Language Reference, "Data Type Comparison Rules"; the order of
/// texts by bytes is this project's profile).
pub fn compare(a: &Cell, b: &Cell) -> Option<Ordering>
    ensures { result ≡ comparison a.now b.now }
{
    match (a, b) {
        (Cell::Num(a), Cell::Num(b)) => Some(a.cmp(b)),
        (Cell::Text(a), Cell::Text(b)) => Some(a.cmp(b)),
        (Cell::Moment(a), Cell::Moment(b)) => Some(a.cmp(b)),
        _ => None,
    }
}
