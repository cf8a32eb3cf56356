//! Copies of rows.
ghost use Rattle.std.specs.Prelude.{◌≡◌, IfOk, MatchOption, None, Some};
ghost use Rattle.std.specs.List.{slice_get};

use au_base::{Cell, List, Memory};
use std::alloc::Global;

/// The row with cells of its own.
pub(crate) fn copy_of(alloc: Global, cells: &[Cell]) -> Result<List<Cell>, Memory>
    ensures { IfOk result (λ copy. copy ≡ cells.now) }
{
    let mut copy = List::new(alloc);
    for cell in cells {
        copy.push(cell.clone()?)?;
    }
    Ok(copy)
}

/// The cell at the place, where there is one. It takes no memory.
pub(crate) fn cell_at(cells: &[Cell], place: usize) -> Option<&Cell>
    ensures { MatchOption result (slice_get cells.now place ≡ None) (λ cell. slice_get cells.now place ≡ Some cell.now) }
{
    cells.get(place)
}
