//! The keys of rows.
ghost use Rattle.std.specs.Prelude.{◌≡◌, ◌<◌, ◌^◌, IfOk, map};
ghost use Rattle.std.specs.List.{All};
ghost use Rattle.std.specs.Option.{option_map};
ghost use Rattle.au_change.specs.Inside as spec;

use crate::rows::cell_at;
use au_base::{Cell, Memory, Text};
use au_txn::RowChange;
use std::alloc::Global;

/// A cell of a key, as keys are put in an order.
#[derive(Debug, Drop, PartialEq, Eq, PartialOrd, Ord)]
pub enum Part {
    Null,
    Number(i64),
    Text(Text),
    Moment(u64),
}

/// The cells at these places. `None` exactly where one of them has none.
pub fn key_at(alloc: Global, cells: &[Cell], places: &[u32]) -> Result<Option<Vec<Cell>>, Memory>
    ensures { IfOk result (λ found. option_map (λ key. key.items) found ≡ spec.key_at places.now cells.now) }
{
    let mut key = Vec::new(alloc);
    for place in places {
        match cell_at(cells, *place as usize) {
            Some(cell) => key.push(cell.clone()?)?,
            None => return Ok(None),
        }
    }
    Ok(Some(key))
}

/// The key that a change makes, where it makes one.
pub(crate) fn new_key(
    alloc: Global,
    places: &[u32],
    change: &RowChange,
) -> Result<Option<Vec<Cell>>, Memory>
    ensures { IfOk result (λ found. option_map (λ key. key.items) found ≡ spec.new_key places.now change.now) }
{
    match &change.new {
        Some(cells) => key_at(alloc, cells.as_slice(), places),
        None => Ok(None),
    }
}

/// The cells as keys are put in an order.
pub fn parts_of(alloc: Global, key: &[Cell]) -> Result<Vec<Part>, Memory>
    ensures { IfOk result (λ parts. parts.items ≡ map spec.part_of key.now) }
{
    let mut parts = Vec::new(alloc);
    for cell in key {
        parts.push(part_of(cell)?)?;
    }
    Ok(parts)
}

fn part_of(cell: &Cell) -> Result<Part, Memory>
    ensures { IfOk result (λ part. part ≡ spec.part_of cell.now) }
{
    match cell {
        Cell::Null => Ok(Part::Null),
        Cell::Num(number) => Ok(Part::Number(*number)),
        Cell::Text(text) => Ok(Part::Text(text.clone()?)),
        Cell::Moment(moment) => Ok(Part::Moment(*moment)),
    }
}
