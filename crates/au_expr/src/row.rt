//! Rows that belong together, one of each range.
ghost use Rattle.std.specs.Prelude.{◌≡◌, ◌<◌, ◌-◌, ◌++◌, ◌∷◌, [], None, Some, MatchOption, length, take};
ghost use Rattle.std.specs.List.{slice_get};
ghost use Rattle.au_base.specs.Limits as limits;

use arrayvec::ArrayVec;
use au_base::Cell;
use au_base::limits::FROM_TABLES;
use std::marker::Model;

/// Rows of up to 8 ranges, one of each, in the order of the ranges. Contracts see the list of their
/// cells. It takes no memory.
#[derive(Drop)]
pub struct Row<'a> {
    rows: ArrayVec<&'a [Cell], FROM_TABLES>,
}

impl<'a> Model for Row<'a> {
    ghost use Rattle.std.specs.Prelude.{List, map};
    ghost use Rattle.au_base.specs.declared.cell.Cell.{Cell};

    ghost Value = { List (List Cell) };

    ghost view = { λ r. map (λ cells. cells.now) r.rows.items };
}

impl<'a> Row<'a> {
    /// No rows.
    pub fn new() -> Row<'a>
        ensures { result ≡ [] }
    {
        Row {
            rows: ArrayVec::new(),
        }
    }

    /// Adds the row of the next range.
    pub fn push(&mut self, cells: &'a [Cell])
        requires { length self.old < limits.FROM_TABLES }
        ensures { self.new ≡ self.old ++ cells.now ∷ [] }
    {
        self.rows.push(cells);
    }

    /// Takes the row of the last range away.
    pub fn pop(&mut self)
        requires { 0 < length self.old }
        ensures { self.new ≡ take (length self.old - 1) self.old }
    {
        self.rows.pop();
    }

    /// How many rows there are.
    pub fn len(&self) -> usize
        ensures { result ≡ length self.now }
    {
        self.rows.len()
    }

    /// The row of a range, by its number from 0.
    pub fn get(&self, range: usize) -> Option<&'a [Cell]>
        ensures { MatchOption result (slice_get self.now range ≡ None) (λ cells. slice_get self.now range ≡ Some cells.now) }
    {
        self.rows.as_slice().get(range).copied()
    }
}
