//! Changes that are made in the rows.
ghost use Rattle.std.specs.Prelude.{◌≡◌, ◌≤◌, ◌<◌, ◌+◌, ◌++◌, ◌∷◌, ◌⊎◌, [], IsSome, List, length, map, true};
ghost use Rattle.std.specs.List.{cons_option, filter_map};
ghost use Rattle.std.specs.Option.{option_map};
ghost use Rattle.std.specs.Vec.Iter.{into_iter_items};
ghost use Rattle.au_base.specs.declared.cell.Cell.{Cell as Content};
ghost use Rattle.au_rows.specs.Calls.{after_change};
ghost use Rattle.au_rows.specs.Held.{IsOpen, is_free_for, number_of, owner_of, seen_at, with_row};
ghost use Rattle.au_txn.specs.Desks.{replayer};
ghost use Rattle.au_txn.specs.Inside.{CanWrite, MayWrite, held_after, kept_change};

use crate::RowChange;
use au_base::{Cell, ClientNo, RowNo, TableName};
use au_rows::Rows;
use std::vec::IntoIter;

/// Makes the client's change. Its new content, where it has one, is the next of the contents.
fn write_one(
    rows: &mut Rows,
    client: ClientNo,
    change: &RowChange,
    contents: &mut IntoIter<Vec<Cell>>,
)
    requires spare { 0 < rows.old.spare }
    requires may { MayWrite rows.old.tables client change.now rows.old.held }
    requires next { (rest : List (List Content)) × (map (λ cells. cells.items) (into_iter_items contents.old) ≡ cons_option change.now.new rest) }
    ensures rest { rows.new ≡ record rows.old { held = with_row (number_of change.now.table rows.old.tables) change.now.row client change.now.new rows.old.held; changes = rows.old.changes ++ kept_change rows.old.tables client change.now ∷ []; spare = rows.new.spare } }
    ensures spare { rows.old.spare ≤ rows.new.spare + 1 }
    ensures contents { map (λ cells. cells.items) (into_iter_items contents.old) ≡ cons_option change.now.new (map (λ cells. cells.items) (into_iter_items contents.new)) }
{
    if change.new.is_none() {
        rows.mark(&change.table, change.row, client);
    } else if let Some(cells) = contents.next() {
        rows.put(&change.table, change.row, cells, client);
    }
}

/// Makes the client's changes, one after another.
pub(crate) fn write_all(
    rows: &mut Rows,
    client: ClientNo,
    changes: &[RowChange],
    contents: Vec<Vec<Cell>>,
)
    requires spare { length changes.now ≤ rows.old.spare }
    requires each { CanWrite rows.old.tables client changes.now rows.old.held }
    requires contents { map (λ cells. cells.items) contents.items ≡ filter_map (λ change. change.new) changes.now }
    ensures tables { rows.new.tables ≡ rows.old.tables }
    ensures held { rows.new.held ≡ held_after rows.old.tables client changes.now rows.old.held }
    ensures changes { rows.new.changes ≡ rows.old.changes ++ map (kept_change rows.old.tables client) changes.now }
    ensures spare { rows.old.spare ≤ rows.new.spare + length changes.now }
{
    let mut contents = contents.into_iter();
    for change in changes {
        write_one(rows, client, change, &mut contents);
    }
}

/// Lays a row as client 0.
pub(crate) fn lay_one(rows: &mut Rows, table: &TableName, row: RowNo, content: Option<Vec<Cell>>)
    requires spare { 0 < rows.old.spare }
    requires open { IsOpen table.now rows.old.tables }
    requires free { is_free_for replayer (owner_of (number_of table.now rows.old.tables) row rows.old.held) ≡ true }
    requires numbered { 1 ≤ row.0 }
    requires content { IsSome content ⊎ IsSome (seen_at (number_of table.now rows.old.tables) row replayer rows.old.held) }
    ensures rest { rows.new ≡ record (after_change (number_of table.now rows.old.tables) row replayer (option_map (λ cells. cells.items) content) rows.old) { spare = rows.new.spare } }
    ensures spare { rows.old.spare ≤ rows.new.spare + 1 }
{
    match content {
        Some(cells) => rows.put(table, row, cells, ClientNo(0)),
        None => rows.mark(table, row, ClientNo(0)),
    }
}
