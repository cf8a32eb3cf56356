//! A row of each table.
ghost use Rattle.std.specs.Prelude.{◌≡◌, ◌≤◌, ◌<◌, ◌-◌, ◌++◌, ◌∷◌, [], IfOk, MatchOption, None, OnOk, Some, length, take};
ghost use Rattle.std.specs.List.{slice_get};
ghost use Rattle.au_query.specs.Combos.{cells_of, lines};
ghost use Rattle.au_base.specs.Limits as limits;

use au_base::limits::FROM_TABLES;
use au_base::{Cell, Memory, RowNo};
use au_expr::Row;
use std::alloc::Global;
use std::marker::Model;

/// A combination: a row of each table, as its number and its cells. Contracts see their list.
#[derive(Drop)]
pub struct Combo<'a> {
    rows: Vec<(RowNo, &'a [Cell])>,
}

impl<'a> Model for Combo<'a> {
    ghost use Rattle.std.specs.Prelude.{List};
    ghost use Rattle.au_query.specs.Combos.{Line, lines};

    ghost Value = { List Line };

    ghost use Rattle.std.specs.Prelude.{◌≤◌, length};
    ghost use Rattle.au_base.specs.Limits as limits;

    ghost view = { λ c. lines c.rows.items };

    ghost invariant = { λ c. length c.rows.items ≤ limits.FROM_TABLES };
}

impl<'a> Combo<'a> {
    /// No row yet, with room for one of each table.
    pub fn new(alloc: Global) -> Result<Combo<'a>, Memory>
        ensures { IfOk result (λ combo. combo ≡ []) }
    {
        Ok(Combo {
            rows: Vec::with_capacity(alloc, FROM_TABLES)?,
        })
    }

    /// Adds the row of the next table.
    pub fn push(&mut self, number: RowNo, cells: &'a [Cell]) -> Result<(), Memory>
        requires { length self.old < limits.FROM_TABLES }
        ensures { OnOk result (self.new ≡ self.old ++ (number, cells.now) ∷ []) }
    {
        self.rows.push((number, cells))?;
        Ok(())
    }

    /// Takes the row of the last table away.
    pub fn pop(&mut self)
        ensures { self.new ≡ take (length self.old - 1) self.old }
    {
        let _last = self.rows.pop();
    }

    /// The same rows.
    pub fn copied(&self, alloc: Global) -> Result<Combo<'a>, Memory>
        ensures { IfOk result (λ combo. combo ≡ self.now) }
    {
        Ok(Combo {
            rows: Vec::from_slice(alloc, self.rows.as_slice())?,
        })
    }

    /// The cells of its rows.
    pub fn row(&self) -> Row<'a>
        ensures { result ≡ cells_of self.now }
    {
        row_of(self.rows.as_slice())
    }

    /// The row of the table of this number, from 0.
    pub fn get(&self, range: usize) -> Option<(RowNo, &'a [Cell])>
        ensures { MatchOption result (slice_get self.now range ≡ None) (λ row. slice_get self.now range ≡ Some (row.0, row.1.now)) }
    {
        row_at(self.rows.as_slice(), range)
    }
}

fn row_of<'a>(rows: &[(RowNo, &'a [Cell])]) -> Row<'a>
    requires { length rows.now ≤ limits.FROM_TABLES }
    ensures { result ≡ cells_of (lines rows.now) }
{
    let mut row = Row::new();
    for (_, cells) in rows {
        row.push(*cells);
    }
    row
}

fn row_at<'a>(rows: &[(RowNo, &'a [Cell])], range: usize) -> Option<(RowNo, &'a [Cell])>
    ensures { MatchOption result (slice_get (lines rows.now) range ≡ None) (λ row. slice_get (lines rows.now) range ≡ Some (row.0, row.1.now)) }
{
    rows.get(range).copied()
}
