//! Rows of a table that suffice for WHERE: where it fixes the table's key, the row under the key.
ghost use Rattle.std.specs.Prelude.{◌≡◌, ◌∷◌, [], IfOk, IfSome, IsTrue, map};
ghost use Rattle.std.specs.Option.{option_to_list};
ghost use Rattle.au_expr.specs.Resolving.{placed};
ghost use Rattle.au_query.specs.Combos.{lines};
ghost use Rattle.au_world.specs.BuiltInTables.{kind_of as kind_named};
ghost use Rattle.au_world.specs.Cutting.{Suffices};
ghost use Rattle.au_world.specs.Inside.{IsWhereKey, where_asked};
ghost use Rattle.au_world.specs.Sights.{has_table, rows_seen, sight_of};
ghost use Rattle.au_world.specs.Sound.{IsSoundFor};
ghost use Rattle.au_world.specs.declared.built_in.TableKind.TheVariants.{Created};

use crate::World;
use crate::looking::{AskedWhere, key_by_where, rows_under};
use crate::sources::created_rows;
use au_base::{Cell, ClientNo, Column, List, Memory, Name, RowNo, TableName, same_is_equal};
use au_expr::SessionFacts;
use au_query::where_never_overflows;
use au_txn::{rows_are_what_they_answer, rows_stand_by_tables};
use sql_ast::Expr;
use std::alloc::Global;

/// Rows of a created table that suffice for WHERE of a client's statement, in order: the one row
/// under the key to which WHERE fixes it, at a cost that doesn't grow with the table, where WHERE
/// can't overflow; and else all that the client sees.
pub fn candidates<'a>(
    alloc: Global,
    world: &'a World<'_>,
    client: ClientNo,
    session: &SessionFacts,
    table: &TableName,
    range: &(Name, List<Column>),
    condition: &Option<Expr>,
) -> Result<Vec<(RowNo, &'a [Cell])>, Memory>
    requires sound { IsSoundFor world.now client }
    requires created { kind_named table.now ≡ Created }
    requires there { IsTrue (has_table world.now.catalog.now.tables table.now) }
    ensures { IfOk result (λ rows. Suffices session.now (map (placed (range.now ∷ [])) (option_to_list condition.now)) (rows_seen (sight_of world.now client) table.now) (lines rows.items)) }
{
    let asked = AskedWhere {
        client,
        session,
        table,
        range,
        condition,
    };
    match where_key(alloc, world, &asked)? {
        Some(key) => row_under(alloc, world, &asked, key.as_slice()),
        None => all_rows(alloc, world, &asked),
    }
}

// The key to which WHERE fixes the table, where it can't overflow over the rows that aren't looked
// at.
fn where_key(
    alloc: Global,
    world: &World<'_>,
    asked: &AskedWhere<'_>,
) -> Result<Option<Vec<Cell>>, Memory>
    requires sound { IsSoundFor world.now asked.now.client }
    ensures { IfOk result (λ found. IfSome found (λ key. IsWhereKey world.now asked.now key.items)) }
{
    if !where_never_overflows(alloc, asked.condition, asked.range)? {
        return Ok(None);
    }
    let found = key_by_where(alloc, world, asked)?;
    Ok(found)
}

fn row_under<'a>(
    alloc: Global,
    world: &'a World<'_>,
    asked: &AskedWhere<'_>,
    key: &[Cell],
) -> Result<Vec<(RowNo, &'a [Cell])>, Memory>
    requires sound { IsSoundFor world.now asked.now.client }
    requires there { IsTrue (has_table world.now.catalog.now.tables asked.now.table.now) }
    requires key { IsWhereKey world.now asked.now key.now }
    ensures { IfOk result (λ rows. Suffices asked.now.session.now (where_asked asked.now) (rows_seen (sight_of world.now asked.now.client) asked.now.table.now) (lines rows.items)) }
{
    same_is_equal();
    rows_are_what_they_answer();
    rows_stand_by_tables();
    world.desk.holds_together();
    rows_under(alloc, world, asked.client, asked.table, key)
}

fn all_rows<'a>(
    alloc: Global,
    world: &'a World<'_>,
    asked: &AskedWhere<'_>,
) -> Result<Vec<(RowNo, &'a [Cell])>, Memory>
    requires sound { IsSoundFor world.now asked.now.client }
    requires created { kind_named asked.now.table.now ≡ Created }
    requires there { IsTrue (has_table world.now.catalog.now.tables asked.now.table.now) }
    ensures { IfOk result (λ rows. Suffices asked.now.session.now (where_asked asked.now) (rows_seen (sight_of world.now asked.now.client) asked.now.table.now) (lines rows.items)) }
{
    created_rows(alloc, world, asked.client, asked.table)
}
