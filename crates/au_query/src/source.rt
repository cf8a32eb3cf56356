//! What a query reads.
ghost use Rattle.std.specs.Prelude.{◌↔◌, IsTrue};
ghost use Rattle.std.specs.List.{AllByRecursion};
ghost use Rattle.au_base.specs.Cells.{IsSoundCell};
ghost use Rattle.au_query.specs.Combos.{AreSoundRows, IsSoundLine, lines, views};

use au_base::{Cell, RowNo, TableName};

/// A table of FROM, as the query's client sees it: its rows by their numbers.
#[derive(Drop)]
pub struct Source<'a> {
    pub table: TableName,
    pub rows: Vec<(RowNo, &'a [Cell])>,
}

/// Whether each cell of each row is a sound one, as `select` asks. It takes no memory.
pub fn are_sound(sources: &[Source<'_>]) -> bool
    ensures { IsTrue result ↔ AreSoundRows (views sources.now) }
{
    for source in sources {
        if !are_sound_rows(source.rows.as_slice()) {
            return false;
        }
    }
    true
}

fn are_sound_rows(rows: &[(RowNo, &[Cell])]) -> bool
    ensures { IsTrue result ↔ AllByRecursion IsSoundLine (lines rows.now) }
{
    for (_, cells) in rows {
        if !are_sound_cells(cells) {
            return false;
        }
    }
    true
}

fn are_sound_cells(cells: &[Cell]) -> bool
    ensures { IsTrue result ↔ AllByRecursion IsSoundCell cells.now }
{
    for cell in cells {
        if !cell.is_sound() {
            return false;
        }
    }
    true
}
