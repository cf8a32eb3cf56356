//! What a transaction leaves of its rows, listed.
ghost use Rattle.std.specs.Prelude.{◌≡◌, ◌≢◌, ◌≤◌, ◌<◌, ◌+◌, ◌++◌, ◌∷◌, ◌↔◌, ◌⊎◌, [], ℕ, IfOk, IsTrue, false, length, slice_index_or, take, true};
ghost use Rattle.std.specs.List.{All};
ghost use Rattle.std.specs.Option.{option_copied};
ghost use Rattle.au_base.specs.declared.cell.Cell.{Cell as Content};
ghost use Rattle.au_rows.specs.Held.{number_of, seen_at};
ghost use Rattle.au_txn.specs.Inside.{held_in_order};
ghost use Rattle.au_txn.specs.Listing.{AreListed, IsAdded, is_one_name, names_rise};
ghost use Rattle.au_txn.specs.declared.row_name.RowName.{RowName as Named};

use crate::Final;
use crate::named::is_same_name;
use crate::row_name::RowName;
use au_base::{Cell, ClientNo, List, Memory, RowNo, TableName};
use au_rows::Rows;
use std::alloc::Global;

/// What the client sees of the row. It takes no memory.
pub(crate) fn content_of<'a>(
    rows: &'a Rows,
    table: &TableName,
    row: RowNo,
    by: ClientNo,
) -> Option<&'a [Cell]>
    requires order { held_in_order rows.now.held ≡ true }
    requires numbered { 1 ≤ row.0 }
    ensures { option_copied result ≡ seen_at (number_of table.now rows.entry.now.tables) row by rows.entry.now.held }
{
    // A row that isn't seen is told apart first: the search for the next one would go on to the
    // table's end.
    if !rows.is_seen(table, row, by) {
        return None;
    }
    let before = RowNo(row.0 - 1);
    match rows.next(table, before, by) {
        Some((number, cells)) => { if number.0 == row.0 { Some(cells) } else { None } }
        None => None,
    }
}

/// Cells are the same exactly where they are equal. It does nothing, and states the law for its
/// callers.
fn same_cells_are_equal()
    ensures { (a b : Content) → IsTrue (⟦<Cell as PartialEq>⟧.eq a b) ↔ (a ≡ b) }
{}

fn are_same(a: &[Cell], b: &[Cell]) -> bool
    ensures { IsTrue result ↔ (a.now ≡ b.now) }
{
    same_cells_are_equal();
    a == b
}

fn is_same_content(a: Option<&[Cell]>, b: Option<&[Cell]>) -> bool
    ensures { IsTrue result ↔ (option_copied a.entry ≡ option_copied b.entry) }
{
    match (a, b) {
        (Some(a), Some(b)) => are_same(a, b),
        (None, None) => true,
        _ => false,
    }
}

fn copy_of(alloc: Global, cells: &[Cell]) -> Result<List<Cell>, Memory>
    ensures { IfOk result (λ copy. copy ≡ cells.now) }
{
    let mut copy = List::new(alloc);
    for cell in cells {
        copy.push(cell.clone()?)?;
    }
    Ok(copy)
}

/// Adds what becomes of the row, where the client sees another content than the other client, who
/// sees what is committed.
fn add_final(
    alloc: Global,
    rows: &Rows,
    name: &RowName,
    client: ClientNo,
    other: ClientNo,
    finals: &mut Vec<Final>,
) -> Result<(), Memory>
    requires order { held_in_order rows.now.held ≡ true }
    requires numbered { 1 ≤ name.now.row.0 }
    ensures { IfOk result (λ _. IsAdded (λ table row. seen_at (number_of table rows.now.tables) row client rows.now.held) (λ table row. seen_at (number_of table rows.now.tables) row other rows.now.held) name.now finals.old.items finals.new.items) }
{
    let content = content_of(rows, &name.table, name.row, client);
    let committed = content_of(rows, &name.table, name.row, other);
    if is_same_content(content, committed) {
        return Ok(());
    }
    let content = match content {
        Some(cells) => Some(copy_of(alloc, cells)?),
        None => None,
    };
    finals.push(Final {
        table: name.table.clone()?,
        row: name.row,
        content,
    })?;
    Ok(())
}

/// Whether the name stands right before its place too.
fn is_repeated(names: &[RowName], at: usize) -> bool
    requires { at < length names.now }
    ensures first { at ≡ 0 → result ≡ false }
    ensures later { (k : ℕ) (d : Named) → at ≡ k + 1 → result ≡ is_one_name (slice_index_or names.now k d) (slice_index_or names.now at d) }
{
    if at == 0 {
        return false;
    }
    is_same_name(&names[at - 1], &names[at])
}

/// Adds what becomes of the row at the place, unless it stands right before it too.
fn add_at(
    alloc: Global,
    rows: &Rows,
    names: &[RowName],
    at: usize,
    clients: (ClientNo, ClientNo),
    finals: &mut Vec<Final>,
) -> Result<(), Memory>
    requires within { at < length names.now }
    requires order { held_in_order rows.now.held ≡ true }
    requires numbered { All (λ name. 1 ≤ name.row.0) names.now }
    requires rise { IsTrue (names_rise names.now) }
    requires so_far { AreListed (λ table row. seen_at (number_of table rows.now.tables) row clients.0 rows.now.held) (λ table row. seen_at (number_of table rows.now.tables) row clients.1 rows.now.held) (take at names.now) finals.old.items }
    ensures { IfOk result (λ _. AreListed (λ table row. seen_at (number_of table rows.now.tables) row clients.0 rows.now.held) (λ table row. seen_at (number_of table rows.now.tables) row clients.1 rows.now.held) (take (at + 1) names.now) finals.new.items) }
{
    if is_repeated(names, at) {
        return Ok(());
    }
    let (client, other) = clients;
    add_final(alloc, rows, &names[at], client, other, finals)
}

/// What becomes of the rows: those whose content the first client sees otherwise than the second.
pub(crate) fn finals_in(
    alloc: Global,
    rows: &Rows,
    names: &[RowName],
    clients: (ClientNo, ClientNo),
) -> Result<Vec<Final>, Memory>
    requires order { held_in_order rows.now.held ≡ true }
    requires numbered { All (λ name. 1 ≤ name.row.0) names.now }
    requires rise { IsTrue (names_rise names.now) }
    ensures { IfOk result (λ finals. AreListed (λ table row. seen_at (number_of table rows.now.tables) row clients.0 rows.now.held) (λ table row. seen_at (number_of table rows.now.tables) row clients.1 rows.now.held) names.now finals.items) }
{
    let mut finals = Vec::new(alloc);
    for at in 0..names.len() {
        add_at(alloc, rows, names, at, clients, &mut finals)?;
    }
    Ok(finals)
}
