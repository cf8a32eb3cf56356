//! What INSERT comes to.
ghost use Rattle.std.specs.Prelude.{◌≡◌, [], IfOk};
ghost use Rattle.au_insert.specs.Inserting.{IsInsertion};
ghost use Rattle.au_txn.specs.Desks.{laid_by};
ghost use Rattle.au_world.specs.BuiltInTables.{kind_of};
ghost use Rattle.au_world.specs.Sights.{sight_of};
ghost use Rattle.au_world.specs.Sound.{IsSoundFor};
ghost use Rattle.au_world.specs.declared.built_in.TableKind.TheVariants.{Created};

use crate::placing::placed_row;
use crate::row::new_row;
use au_base::{ClientNo, Memory, TableName};
use au_expr::SessionFacts;
use au_modify::{Modification, columns_in};
use au_world::World;
use sql_ast::Insert;
use std::alloc::Global;

/// What an INSERT of a client comes to, whose user may insert into the table. The client has laid no
/// row, as none does but the one that replays. The rows of the table aren't gone over.
pub fn insert(
    alloc: Global,
    world: &World<'_>,
    client: ClientNo,
    session: &SessionFacts,
    table: &TableName,
    insert: &Insert,
) -> Result<Modification, Memory>
    requires sound { IsSoundFor world.now client }
    requires created { kind_of table.now ≡ Created }
    requires laid { laid_by client world.now.desk.now.laid ≡ [] }
    ensures { IfOk result (IsInsertion (sight_of world.now client) client session.now table.now insert.now) }
{
    let columns = columns_in(world.catalog.tables.as_slice(), table);
    match new_row(alloc, session, columns, insert)? {
        Err(code) => Ok(Modification::refused(alloc, code)),
        Ok(row) => placed_row(alloc, world, client, table, row),
    }
}
