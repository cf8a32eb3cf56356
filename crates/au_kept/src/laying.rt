//! One change among the tables and rows of a desk on which nobody else has changes.
ghost use Rattle.std.specs.Prelude.{◌≡◌, ◌≢◌, ◌≤◌, ◌⊎◌, [], IsSome, IsTrue, OnOk, false, filter, not};
ghost use Rattle.std.specs.Option.{option_map};
ghost use Rattle.au_base.specs.Order.{placed};
ghost use Rattle.au_entries.specs.Changing.{rows_after};
ghost use Rattle.au_image.specs.Image.{kept_rows};
ghost use Rattle.au_kept.specs.Building.{CanTake, IsQuiet, opened_after};
ghost use Rattle.au_txn.specs.Desks.{has_name, is_open, table_before};
ghost use Rattle.au_txn.specs.Rows.{is_in, row_at, with_content};

use au_base::{Cell, List, Memory, RowNo, TableName};
use au_entries::Change;
use au_txn::Desk;

/// Makes the change among the tables and the rows of the desk, where it is one of them. Each row is
/// made committed at once, so that nobody has changes then either.
pub(crate) fn change_desk(desk: &mut Desk, change: &Change) -> Result<(), Memory>
    requires quiet { IsQuiet desk.old }
    requires can { CanTake change.now desk.old }
    ensures rows { OnOk result (kept_rows desk.new ≡ rows_after change.now (kept_rows desk.old)) }
    ensures tables { OnOk result (desk.new.tables ≡ opened_after change.now desk.old.tables) }
    ensures quiet { OnOk result (IsQuiet desk.new) }
{
    au_txn::rows_are_triples();
    match change {
        Change::Put(table, row, cells) => put_row(desk, table, *row, cells),
        Change::Gone(table, row) => set_row(desk, table, *row, None),
        Change::Table(name, _, key) => open_table(desk, name, key),
        Change::TableGone(name) => drop_table(desk, name),
        _ => Ok(()),
    }
}

fn put_row(desk: &mut Desk, table: &TableName, row: RowNo, cells: &List<Cell>) -> Result<(), Memory>
    requires quiet { IsQuiet desk.old }
    requires there { IsTrue (is_open table.now desk.old.tables) }
    requires numbered { 1 ≤ row.0 }
    ensures rows { OnOk result (desk.new.rows ≡ with_content table.now row (Some cells.now) desk.old.rows) }
    ensures tables { OnOk result (desk.new.tables ≡ desk.old.tables) }
    ensures quiet { OnOk result (IsQuiet desk.new) }
{
    let cells = cells.clone()?;
    set_row(desk, table, row, Some(cells.into_vec()))
}

// Gives the row this content, or takes it away.
fn set_row(
    desk: &mut Desk,
    table: &TableName,
    row: RowNo,
    content: Option<Vec<Cell>>,
) -> Result<(), Memory>
    requires quiet { IsQuiet desk.old }
    requires there { IsTrue (is_open table.now desk.old.tables) }
    requires numbered { 1 ≤ row.0 }
    requires content { IsSome content ⊎ IsSome (row_at table.now row desk.old.rows) }
    ensures rows { OnOk result (desk.new.rows ≡ with_content table.now row (option_map (λ cells. cells.items) content) desk.old.rows) }
    ensures tables { OnOk result (desk.new.tables ≡ desk.old.tables) }
    ensures quiet { OnOk result (IsQuiet desk.new) }
{
    desk.reserve_rows(1)?;
    lay_and_keep(desk, table, row, content);
    Ok(())
}

fn lay_and_keep(desk: &mut Desk, table: &TableName, row: RowNo, content: Option<Vec<Cell>>)
    requires spare { 1 ≤ desk.old.spare }
    requires quiet { IsQuiet desk.old }
    requires there { IsTrue (is_open table.now desk.old.tables) }
    requires numbered { 1 ≤ row.0 }
    requires content { IsSome content ⊎ IsSome (row_at table.now row desk.old.rows) }
    ensures rows { desk.new.rows ≡ with_content table.now row (option_map (λ cells. cells.items) content) desk.old.rows }
    ensures tables { desk.new.tables ≡ desk.old.tables }
    ensures quiet { IsQuiet desk.new }
{
    au_txn::lone_clients_meet_no_lock();
    desk.lay(table, row, content);
    desk.keep_laid();
}

fn open_table(desk: &mut Desk, name: &TableName, key: &List<u32>) -> Result<(), Memory>
    requires quiet { IsQuiet desk.old }
    requires new { is_open name.now desk.old.tables ≡ false }
    ensures rows { OnOk result (desk.new.rows ≡ desk.old.rows) }
    ensures tables { OnOk result (desk.new.tables ≡ placed table_before (record { name = name.now; key = key.now }) desk.old.tables) }
    ensures quiet { OnOk result (IsQuiet desk.new) }
{
    let name = name.clone()?;
    let key = key.clone()?;
    desk.reserve_rows(1)?;
    desk.open_table(name, key.into_vec());
    Ok(())
}

fn drop_table(desk: &mut Desk, name: &TableName) -> Result<(), Memory>
    requires quiet { IsQuiet desk.old }
    requires there { IsTrue (is_open name.now desk.old.tables) }
    ensures rows { OnOk result (desk.new.rows ≡ filter (λ row. not (is_in name.now row)) desk.old.rows) }
    ensures tables { OnOk result (desk.new.tables ≡ filter (λ other. not (has_name name.now other)) desk.old.tables) }
    ensures quiet { OnOk result (IsQuiet desk.new) }
{
    desk.drop_table(name);
    Ok(())
}
