//! The choice of rows, and the rules that refuse it.
ghost use Rattle.std.specs.Prelude.{◌≡◌, ◌↔◌, [], IfOk, IsTrue, MatchResult, None};
ghost use Rattle.std.specs.List.{AllByRecursion, Contains};
ghost use Rattle.au_choose.specs.Choosing as spec;
ghost use Rattle.au_choose.specs.Choosing.{IsChoiceRefused, IsChosen, where_kind};
ghost use Rattle.au_choose.specs.Inside.{IsLimitBroken, IsLimitKept, are_many};
ghost use Rattle.au_query.specs.Combos.{IsSoundLine, lines};
ghost use Rattle.au_txn.specs.Desks.{laid_by};
ghost use Rattle.au_world.specs.BuiltInTables.{kind_of};
ghost use Rattle.au_world.specs.Sights.{has_table, rows_seen, sight_of};
ghost use Rattle.au_world.specs.Sound.{IsSoundFor};
ghost use Rattle.au_world.specs.declared.built_in.TableKind.TheVariants.{Created};

use crate::passing::{passing, resolved};
use au_base::limits::TRANSACTION_CHANGES;
use au_base::{Cell, ClientNo, Code, Column, List, Memory, Name, RowNo, TableName};
use au_expr::SessionFacts;
use au_world::{World, candidates};
use sql_ast::Expr;
use std::alloc::Global;

/// The rows of a created table that WHERE chooses, by their numbers: of those that the client sees,
/// the ones over which it is Yes. The code is the first of these: 1426 where it overflows over any
/// row; 99009 where the transaction would have too many changes; 54 where another client has a
/// change of a chosen row. `range` is that of `range_in`, over which neither 904 nor 932 refuses
/// WHERE.
pub fn choose<'a>(
    alloc: Global,
    world: &'a World<'_>,
    client: ClientNo,
    session: &SessionFacts,
    table: &TableName,
    range: &(Name, List<Column>),
    condition: &Option<Expr>,
) -> Result<Result<Vec<(RowNo, &'a [Cell])>, Code>, Memory>
    requires sound { IsSoundFor world.now client }
    requires created { kind_of table.now ≡ Created }
    requires there { IsTrue (has_table world.now.catalog.now.tables table.now) }
    requires range { range.now ≡ spec.range_in (sight_of world.now client) table.now }
    requires unrefused { where_kind range.now condition.now ≡ None }
    requires laid { laid_by client world.now.desk.now.laid ≡ [] }
    ensures chosen { IfOk result (λ found. MatchResult found
        (λ rows. IsChosen (sight_of world.now client) client session.now table.now condition.now (lines rows.items))
        (λ code. IsChoiceRefused (sight_of world.now client) client session.now table.now condition.now code)) }
    ensures seen { IfOk result (λ found. IfOk found (λ rows. AllByRecursion (λ line. Contains (rows_seen (sight_of world.now client) table.now) line) (lines rows.items))) }
    ensures sound { IfOk result (λ found. IfOk found (λ rows. AllByRecursion IsSoundLine (lines rows.items))) }
{
    let rows = candidates(alloc, world, client, session, table, range, condition)?;
    let condition = resolved(alloc, condition, range)?;
    match passing(alloc, rows.as_slice(), &condition, session)? {
        Some(chosen) => Ok(allowed(world, client, table, chosen)),
        None => Ok(Err(Code::OVERFLOW)),
    }
}

// The rows, where the client may change them.
fn allowed<'a>(
    world: &World<'_>,
    client: ClientNo,
    table: &TableName,
    chosen: Vec<(RowNo, &'a [Cell])>,
) -> Result<Vec<(RowNo, &'a [Cell])>, Code>
    requires laid { laid_by client world.now.desk.now.laid ≡ [] }
    ensures kept { MatchResult result
        (λ rows. IsLimitKept (sight_of world.now client) client table.now (lines chosen.entry.items) × (rows.items ≡ chosen.entry.items))
        (λ code. IsLimitBroken (sight_of world.now client) client table.now (lines chosen.entry.items) code) }
{
    if are_too_many(world.desk.changes(client).len(), chosen.len()) {
        return Err(Code::TOO_MANY_CHANGES);
    }
    if is_some_locked(world, client, table, chosen.as_slice()) {
        return Err(Code::LOCKED);
    }
    Ok(chosen)
}

// Whether a transaction with so many changes and so many more has more than it may have.
fn are_too_many(own: usize, more: usize) -> bool
    ensures { result ≡ are_many own more }
{
    own > TRANSACTION_CHANGES || more > TRANSACTION_CHANGES - own
}

// Whether another client has a change of one of the rows.
fn is_some_locked(
    world: &World<'_>,
    client: ClientNo,
    table: &TableName,
    rows: &[(RowNo, &[Cell])],
) -> bool
    ensures { IsTrue result ↔ spec.IsSomeLocked (sight_of world.now client) client table.now (lines rows.now) }
{
    for (number, _) in rows {
        if world.desk.locked_row(client, table, *number) {
            return true;
        }
    }
    false
}
