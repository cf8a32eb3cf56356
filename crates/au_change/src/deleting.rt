//! DELETE.
ghost use Rattle.std.specs.Prelude.{◌≡◌, [], IfOk, IsTrue, map};
ghost use Rattle.au_base.specs.Codes.{DONE};
ghost use Rattle.au_change.specs.Deleting.{IsDeletion, deletion};
ghost use Rattle.au_choose.specs.Choosing.{where_kind, where_name};
ghost use Rattle.au_expr.specs.Names.{or_code};
ghost use Rattle.au_modify.specs.Columns.{names_of as called};
ghost use Rattle.au_query.specs.Combos.{lines};
ghost use Rattle.au_txn.specs.Desks.{laid_by};
ghost use Rattle.au_world.specs.BuiltInTables.{kind_of};
ghost use Rattle.au_world.specs.Sights.{has_table, sight_of};
ghost use Rattle.au_world.specs.Sound.{IsSoundFor};
ghost use Rattle.au_world.specs.declared.built_in.TableKind.TheVariants.{Created};

use crate::rows::copy_of;
use au_base::{Cell, ClientNo, Code, Column, List, Memory, Name, RowNo, TableName};
use au_choose::{choose, range_in, where_kind_code, where_name_code};
use au_expr::SessionFacts;
use au_modify::Modification;
use au_txn::RowChange;
use au_world::World;
use sql_ast::{Delete, Expr};
use std::alloc::Global;

/// What a client's DELETE comes to, whose user may delete from the table. Only rows that it chooses
/// are copied.
pub fn delete(
    alloc: Global,
    world: &World<'_>,
    client: ClientNo,
    session: &SessionFacts,
    table: &TableName,
    delete: &Delete,
) -> Result<Modification, Memory>
    requires sound { IsSoundFor world.now client }
    requires there { IsTrue (has_table world.now.catalog.now.tables table.now) }
    requires created { kind_of table.now ≡ Created }
    requires laid { laid_by client world.now.desk.now.laid ≡ [] }
    ensures { IfOk result (IsDeletion (sight_of world.now client) client session.now table.now delete.now) }
{
    let range = range_in(alloc, world, table)?;
    match where_code(&delete.condition, &range) {
        Some(code) => Ok(Modification::refused(alloc, code)),
        None => match choose(
            alloc,
            world,
            client,
            session,
            table,
            &range,
            &delete.condition,
        )? {
            Err(code) => Ok(Modification::refused(alloc, code)),
            Ok(rows) => deleted(alloc, table, range.1.as_slice(), rows.as_slice()),
        },
    }
}

// 904, and else 932, of WHERE.
fn where_code(condition: &Option<Expr>, range: &(Name, List<Column>)) -> Option<Code>
    ensures { result ≡ or_code (where_name range.now condition.now) (where_kind range.now condition.now) }
{
    match where_name_code(condition, range) {
        Some(code) => Some(code),
        None => where_kind_code(condition, range),
    }
}

fn deleted(
    alloc: Global,
    table: &TableName,
    columns: &[Column],
    rows: &[(RowNo, &[Cell])],
) -> Result<Modification, Memory>
    ensures { IfOk result (λ done. done ≡ record { code = DONE; changes = map (deletion table.now) (lines rows.now); named = called columns.now }) }
{
    let mut changes = List::new(alloc);
    for (row, cells) in rows {
        changes.push(RowChange {
            table: table.clone()?,
            row: *row,
            old: Some(copy_of(alloc, *cells)?),
            new: None,
        })?;
    }
    Ok(Modification {
        code: Code::DONE,
        changes,
        named: names_of(alloc, columns)?,
    })
}

fn names_of(alloc: Global, columns: &[Column]) -> Result<List<Name>, Memory>
    ensures { IfOk result (λ names. names ≡ called columns.now) }
{
    let mut names = List::new(alloc);
    for column in columns {
        names.push(column.name.clone()?)?;
    }
    Ok(names)
}
