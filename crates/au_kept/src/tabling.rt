//! Tables that are opened and closed for rows.
ghost use Rattle.std.specs.Prelude.{◌≡◌, ◌+◌, ◌≤◌, ◌∷◌, []};
ghost use Rattle.au_base.specs.declared.numbers.ClientNo.{ClientNo as Client};
ghost use Rattle.au_kept.specs.Staging.{opened_count};
ghost use Rattle.au_kept.specs.descent.Tabling.{CanEdit, MayEdit, rows_edited, rows_edited_all, tables_edited, tables_edited_all};
ghost use Rattle.au_txn.specs.Desks.{open_of, spare_of};
ghost use Rattle.au_txn.specs.Keys.{IsKeyedDesk};

use crate::staged::TableEdit;
use au_base::{List, TableName};
use au_txn::Desk;

/// Makes the edits in their order. It takes no memory.
pub(crate) fn edit_tables(desk: &mut Desk, edits: Vec<TableEdit>)
    requires can { CanEdit (open_of desk.old) edits.items desk.old.tables }
    requires spare { opened_count edits.items ≤ desk.old.spare }
    ensures tables { desk.new.tables ≡ tables_edited_all edits.items desk.old.tables }
    ensures rows { desk.new.rows ≡ rows_edited_all edits.items desk.old.rows }
    ensures lists { desk.new.logs ≡ desk.old.logs }
    ensures laid { desk.new.laid ≡ desk.old.laid }
    ensures spare { desk.old.spare ≤ desk.new.spare + opened_count edits.items }
    ensures keyed { IsKeyedDesk desk.old → IsKeyedDesk desk.new }
{
    let mut rest = edits.into_iter();
    while let Some(edit) = rest.next() {
        edit_table(desk, edit);
    }
}

fn edit_table(desk: &mut Desk, edit: TableEdit)
    requires may { MayEdit (open_of desk.old) edit desk.old.tables }
    requires spare { opened_count (edit ∷ []) ≤ desk.old.spare }
    ensures tables { desk.new.tables ≡ tables_edited edit desk.old.tables }
    ensures rows { desk.new.rows ≡ rows_edited edit desk.old.rows }
    ensures lists { desk.new.logs ≡ desk.old.logs }
    ensures laid { desk.new.laid ≡ desk.old.laid }
    ensures spare { desk.old.spare ≤ desk.new.spare + opened_count (edit ∷ []) }
    ensures keyed { IsKeyedDesk desk.old → IsKeyedDesk desk.new }
{
    match edit {
        TableEdit::Open(name, key) => open_table(desk, name, key),
        TableEdit::Close(name) => close_table(desk, &name),
    }
}

fn open_table(desk: &mut Desk, name: TableName, key: List<u32>)
    requires may { MayEdit (open_of desk.old) (TableEdit.Open name key) desk.old.tables }
    requires spare { 1 ≤ desk.old.spare }
    ensures tables { desk.new.tables ≡ tables_edited (TableEdit.Open name key) desk.old.tables }
    ensures rows { desk.new.rows ≡ desk.old.rows }
    ensures lists { desk.new.logs ≡ desk.old.logs }
    ensures laid { desk.new.laid ≡ desk.old.laid }
    ensures spare { desk.old.spare ≤ desk.new.spare + 1 }
    ensures keyed { IsKeyedDesk desk.old → IsKeyedDesk desk.new }
{
    desk.holds_together();
    au_txn::desks_stay_keyed();
    desk.open_table(name, key.into_vec());
}

fn close_table(desk: &mut Desk, name: &TableName)
    requires may { MayEdit (open_of desk.old) (TableEdit.Close name.now) desk.old.tables }
    ensures tables { desk.new.tables ≡ tables_edited (TableEdit.Close name.now) desk.old.tables }
    ensures rows { desk.new.rows ≡ rows_edited (TableEdit.Close name.now) desk.old.rows }
    ensures lists { desk.new.logs ≡ desk.old.logs }
    ensures laid { desk.new.laid ≡ desk.old.laid }
    ensures spare { desk.old.spare ≤ desk.new.spare }
    ensures keyed { IsKeyedDesk desk.old → IsKeyedDesk desk.new }
{
    au_txn::desks_stay_keyed();
    desk.drop_table(name);
}
