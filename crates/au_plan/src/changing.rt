//! What comes of INSERT, UPDATE and DELETE.
ghost use Rattle.std.specs.Prelude.{◌≡◌, ◌∷◌, [], IfOk, flat_map};
ghost use Rattle.au_audit.specs.Firing as policies;
ghost use Rattle.au_base.specs.declared.action.Action.TheVariants as actions;
ghost use Rattle.au_change.specs.Deleting.{IsDeletion};
ghost use Rattle.au_change.specs.Updating.{IsUpdate};
ghost use Rattle.au_fga.specs.Testing.{RowsFit, truth_over};
ghost use Rattle.au_insert.specs.Inserting.{IsInsertion};
ghost use Rattle.au_plan.specs.Planning.{CanBePlanned};
ghost use Rattle.au_plan.specs.Plans.{IsChangePlan, contents_in, facts_of, meant, reply_of};
ghost use Rattle.au_txn.specs.Desks.{laid_by};
ghost use Rattle.au_world.specs.Rights.{AreTableRights};
ghost use Rattle.au_world.specs.Sights.{sight_of};
ghost use Rattle.au_world.specs.Sound.{AreTablesInOrder, IsSoundWorld};

use crate::changed_rows::changed_rows_fit;
use crate::changes_firing::fired_by_changes;
use crate::refusing::refused;
use crate::{RowPlan, World};
use au_base::{Action, ClientNo, List, Memory, Privilege, Reply, TableName, same_is_equal};
use au_expr::SessionFacts;
use au_modify::Modification;
use au_world::{TableRights, sound_worlds_are_sound_for_clients, table_rights};
use sql_ast::{Delete, Insert, Update};
use std::alloc::Global;
use std::slice;

/// What comes of a client's INSERT: by the right to insert into the table, then by its row.
pub fn insert_plan(
    alloc: Global,
    world: &World<'_>,
    client: ClientNo,
    session: &SessionFacts,
    insert: &Insert,
) -> Result<RowPlan, Memory>
    requires sound { IsSoundWorld world.now }
    requires planned { CanBePlanned world.now }
    requires laid { laid_by client world.now.desk.now.laid ≡ [] }
    ensures { IfOk result (IsChangePlan (truth_over session.now world.now.catalog.now.tables) (sight_of world.now client) session.now actions.Insert (meant session.now insert.now.table) (IsInsertion (sight_of world.now client) client session.now (meant session.now insert.now.table) insert.now)) }
{
    same_is_equal();
    changed_rows_fit();
    sound_worlds_are_sound_for_clients();
    world.desk.holds_together();
    let table = insert.table.resolved(alloc, session.user())?;
    let rights = right(alloc, world, session, &table, Action::Insert)?;
    if rights.code.0 != 0 {
        return Ok(refused(alloc, rights));
    }
    let modification = au_insert::insert(alloc, world, client, session, &table, insert)?;
    let plan = made(
        alloc,
        world,
        session,
        Action::Insert,
        table,
        rights.used,
        modification,
    )?;
    Ok(plan)
}

/// What comes of a client's UPDATE: by the right to update the table, then by its rows.
pub fn update_plan(
    alloc: Global,
    world: &World<'_>,
    client: ClientNo,
    session: &SessionFacts,
    update: &Update,
) -> Result<RowPlan, Memory>
    requires sound { IsSoundWorld world.now }
    requires planned { CanBePlanned world.now }
    requires laid { laid_by client world.now.desk.now.laid ≡ [] }
    ensures { IfOk result (IsChangePlan (truth_over session.now world.now.catalog.now.tables) (sight_of world.now client) session.now actions.Update (meant session.now update.now.table) (IsUpdate (sight_of world.now client) client session.now (meant session.now update.now.table) update.now)) }
{
    same_is_equal();
    changed_rows_fit();
    sound_worlds_are_sound_for_clients();
    world.desk.holds_together();
    let table = update.table.resolved(alloc, session.user())?;
    let rights = right(alloc, world, session, &table, Action::Update)?;
    if rights.code.0 != 0 {
        return Ok(refused(alloc, rights));
    }
    let modification = au_change::update(alloc, world, client, session, &table, update)?;
    let plan = made(
        alloc,
        world,
        session,
        Action::Update,
        table,
        rights.used,
        modification,
    )?;
    Ok(plan)
}

/// What comes of a client's DELETE: by the right to delete from the table, then by its rows.
pub fn delete_plan(
    alloc: Global,
    world: &World<'_>,
    client: ClientNo,
    session: &SessionFacts,
    delete: &Delete,
) -> Result<RowPlan, Memory>
    requires sound { IsSoundWorld world.now }
    requires planned { CanBePlanned world.now }
    requires laid { laid_by client world.now.desk.now.laid ≡ [] }
    ensures { IfOk result (IsChangePlan (truth_over session.now world.now.catalog.now.tables) (sight_of world.now client) session.now actions.Delete (meant session.now delete.now.table) (IsDeletion (sight_of world.now client) client session.now (meant session.now delete.now.table) delete.now)) }
{
    same_is_equal();
    changed_rows_fit();
    sound_worlds_are_sound_for_clients();
    world.desk.holds_together();
    let table = delete.table.resolved(alloc, session.user())?;
    let rights = right(alloc, world, session, &table, Action::Delete)?;
    if rights.code.0 != 0 {
        return Ok(refused(alloc, rights));
    }
    let modification = au_change::delete(alloc, world, client, session, &table, delete)?;
    let plan = made(
        alloc,
        world,
        session,
        Action::Delete,
        table,
        rights.used,
        modification,
    )?;
    Ok(plan)
}

// The right of the session's user to do this with the table.
fn right(
    alloc: Global,
    world: &World<'_>,
    session: &SessionFacts,
    table: &TableName,
    action: Action,
) -> Result<TableRights, Memory>
    requires order { AreTablesInOrder world.now.catalog.now.tables }
    ensures { IfOk result (AreTableRights world.now.catalog.now.tables world.now.grants.now session.now.user action (table.now ∷ [])) }
{
    let rights = table_rights(alloc, world, session.user(), slice::from_ref(table), action)?;
    Ok(rights)
}

// The plan of a statement that makes this of rows of its table, by these privileges.
fn made(
    alloc: Global,
    world: &World<'_>,
    session: &SessionFacts,
    action: Action,
    table: TableName,
    used: List<Privilege>,
    modification: Modification,
) -> Result<RowPlan, Memory>
    requires planned { CanBePlanned world.now }
    requires fit { RowsFit world.now.catalog.now.tables ((table, flat_map contents_in modification.changes) ∷ []) }
    ensures { IfOk result (λ plan. plan ≡ record { code = modification.code; used = used; reply = reply_of modification; changes = modification.changes; fired = policies.fired (truth_over session.now world.now.catalog.now.tables) modification.code (facts_of action table modification) world.now.catalog.now.fga }) }
{
    let Modification {
        code,
        changes,
        named,
    } = modification;
    let count = changes.len() as u64;
    let fired = fired_by_changes(
        alloc,
        world,
        session,
        code,
        action,
        changes.as_slice(),
        (table, named),
    )?;
    Ok(RowPlan {
        code,
        used,
        reply: Reply {
            code,
            columns: List::new(alloc),
            count,
            rows: List::new(alloc),
        },
        changes,
        fired: List::from_vec(fired),
    })
}
