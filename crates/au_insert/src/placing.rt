//! Where the new row of an INSERT comes to stand.
ghost use Rattle.std.specs.Prelude.{◌≡◌, ◌<◌, [], IfOk};
ghost use Rattle.std.specs.List.{AllByRecursion};
ghost use Rattle.au_base.specs.Limits as limits;
ghost use Rattle.au_insert.specs.Inserting as spec;
ghost use Rattle.au_insert.specs.Inside.{IsPlacedRow, row_inserted};
ghost use Rattle.au_txn.specs.Desks.{laid_by};
ghost use Rattle.au_world.specs.Sights.{sight_of};
ghost use Rattle.au_world.specs.Sound.{IsOpenTable};

use crate::row::NewRow;
use au_base::limits::{LAST_ROW_NUMBER, TABLE_ROW_NUMBERS, TRANSACTION_CHANGES};
use au_base::{ClientNo, Code, List, Memory, RowNo, TableName};
use au_modify::{Modification, is_locked_at, is_present_at, key_in};
use au_txn::RowChange;
use au_world::World;
use std::alloc::Global;

/// What comes of a new row that fits its columns: the table and the transaction have room for it; no
/// other client has a change with its key; and no row has it.
pub fn placed_row(
    alloc: Global,
    world: &World<'_>,
    client: ClientNo,
    table: &TableName,
    row: NewRow,
) -> Result<Modification, Memory>
    requires tables { AllByRecursion (IsOpenTable world.now.desk.now) world.now.catalog.now.tables }
    requires laid { laid_by client world.now.desk.now.laid ≡ [] }
    ensures { IfOk result (IsPlacedRow (sight_of world.now client) client table.now row) }
{
    let (count, last) = world.desk.numbers(table);
    if let Some(code) = room_code(world.desk.changes(client), count, last) {
        return Ok(Modification::refused(alloc, code));
    }
    let places = key_in(world.catalog.tables.as_slice(), table);
    let cells = row.cells.as_slice();
    if is_locked_at(alloc, world, client, table, places, cells)? {
        return Ok(Modification::refused(alloc, Code::LOCKED));
    }
    if is_present_at(alloc, world, client, table, places, cells)? {
        return Ok(Modification::refused(alloc, Code::KEY_PRESENT));
    }
    inserted(alloc, table, last, row)
}

// 99004 where the table has no room for a row, 99009 where the transaction has none for its change.
fn room_code(own: &[RowChange], count: u32, last: u32) -> Option<Code>
    ensures { result ≡ spec.room_refusal own.now count last }
{
    if count >= TABLE_ROW_NUMBERS || last >= LAST_ROW_NUMBER {
        return Some(Code::TOO_MANY_ROW_NUMBERS);
    }
    if own.len() >= TRANSACTION_CHANGES {
        return Some(Code::TOO_MANY_CHANGES);
    }
    None
}

fn inserted(
    alloc: Global,
    table: &TableName,
    last: u32,
    row: NewRow,
) -> Result<Modification, Memory>
    requires { last < limits.LAST_ROW_NUMBER }
    ensures { IfOk result (λ done. done ≡ row_inserted table.now last row) }
{
    let NewRow { cells, named } = row;
    let mut changes = List::new(alloc);
    changes.push(RowChange {
        table: table.clone()?,
        row: RowNo(last + 1),
        old: None,
        new: Some(cells),
    })?;
    Ok(Modification {
        code: Code::DONE,
        changes,
        named,
    })
}
