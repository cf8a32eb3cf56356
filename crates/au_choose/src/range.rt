//! Under which name the columns of a table are looked up, and the columns.
ghost use Rattle.std.specs.Prelude.{◌≡◌, IfOk};
ghost use Rattle.au_base.specs.declared.numbers.ClientNo.{ClientNo as Client};
ghost use Rattle.au_choose.specs.Choosing as spec;
ghost use Rattle.au_world.specs.Sights.{sight_of};
ghost use Rattle.au_world.specs.Sound.{AreTablesInOrder};

use au_base::{Column, List, Memory, Name, TableName};
use au_world::{World, columns_of};
use std::alloc::Global;

/// The table's own name, by which its columns may be qualified, and its columns.
pub fn range_in(
    alloc: Global,
    world: &World<'_>,
    table: &TableName,
) -> Result<(Name, List<Column>), Memory>
    requires order { AreTablesInOrder world.now.catalog.now.tables }
    ensures { IfOk result (λ range. (client : Client) → range ≡ spec.range_in (sight_of world.now client) table.now) }
{
    let name = table.name.clone()?;
    Ok((
        name,
        columns_of(alloc, world.catalog.tables.as_slice(), table)?,
    ))
}
