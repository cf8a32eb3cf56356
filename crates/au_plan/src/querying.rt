//! What comes of a query.
ghost use Rattle.std.specs.Prelude.{◌≡◌, [], IfOk, map};
ghost use Rattle.au_audit.specs.Firing as policies;
ghost use Rattle.au_audit.specs.Statements as statements;
ghost use Rattle.au_base.specs.declared.action.Action.TheVariants as action;
ghost use Rattle.au_fga.specs.Testing.{truth_over};
ghost use Rattle.au_plan.specs.Planning.{CanBePlanned};
ghost use Rattle.au_world.specs.Plans.{IsAnswered, IsQueryPlan, row_facts};
ghost use Rattle.au_world.specs.Rights.{AreTableRights};
ghost use Rattle.au_world.specs.Selecting.{AreThere, IsQuery};
ghost use Rattle.au_world.specs.Sights.{sight_of};
ghost use Rattle.au_world.specs.Sound.{IsSoundWorld};

use crate::firing::fired;
use crate::refusing::refused;
use crate::{RowPlan, World};
use au_audit::tables_of;
use au_base::{Action, ClientNo, List, Memory, Privilege, same_is_equal};
use au_expr::SessionFacts;
use au_world::{Selected, TableRights, select, sound_worlds_are_sound_for_clients, table_rights};
use sql_ast::Statement;
use std::alloc::Global;

/// What comes of a client's SELECT or COUNT over the world: first by the right to select from each
/// table that it names, then by what it answers. Where the right is missing, the plan has the code
/// alone.
pub fn query_plan(
    alloc: Global,
    world: &World<'_>,
    client: ClientNo,
    session: &SessionFacts,
    statement: &Statement,
) -> Result<RowPlan, Memory>
    requires sound { IsSoundWorld world.now }
    requires planned { CanBePlanned world.now }
    requires query { IsQuery statement.now }
    ensures { IfOk result (IsQueryPlan (truth_over session.now world.now.catalog.now.tables) (sight_of world.now client) session.now statement.now) }
{
    let tables = tables_of(alloc, session.user(), statement)?;
    let rights = table_rights(
        alloc,
        world,
        session.user(),
        tables.as_slice(),
        Action::Select,
    )?;
    let plan = by_rights(alloc, world, client, session, statement, rights)?;
    Ok(plan)
}

// What comes of the query by the right to its tables.
fn by_rights(
    alloc: Global,
    world: &World<'_>,
    client: ClientNo,
    session: &SessionFacts,
    statement: &Statement,
    rights: TableRights,
) -> Result<RowPlan, Memory>
    requires sound { IsSoundWorld world.now }
    requires planned { CanBePlanned world.now }
    requires query { IsQuery statement.now }
    requires rights { AreTableRights world.now.catalog.now.tables world.now.grants.now session.now.user action.Select (statements.tables_of session.now.user statement.now) rights }
    ensures { IfOk result (IsQueryPlan (truth_over session.now world.now.catalog.now.tables) (sight_of world.now client) session.now statement.now) }
{
    same_is_equal();
    if rights.code.0 != 0 {
        return Ok(refused(alloc, rights));
    }
    let plan = allowed(alloc, world, client, session, statement, rights.used)?;
    Ok(plan)
}

// What comes of a query whose tables may be read, by these privileges.
fn allowed(
    alloc: Global,
    world: &World<'_>,
    client: ClientNo,
    session: &SessionFacts,
    statement: &Statement,
    used: List<Privilege>,
) -> Result<RowPlan, Memory>
    requires sound { IsSoundWorld world.now }
    requires planned { CanBePlanned world.now }
    requires query { IsQuery statement.now }
    requires there { AreThere world.now.catalog.now.tables session.now.user statement.now }
    ensures used { IfOk result (λ plan. plan.used ≡ used) }
    ensures changes { IfOk result (λ plan. plan.changes ≡ []) }
    ensures answered { IfOk result (IsAnswered (truth_over session.now world.now.catalog.now.tables) (sight_of world.now client) session.now statement.now) }
{
    sound_worlds_are_sound_for_clients();
    let selected = select(alloc, *world, client, session, statement)?;
    let plan = answered(alloc, world, client, session, used, selected)?;
    Ok(plan)
}

// The plan of a query with this answer.
fn answered(
    alloc: Global,
    world: &World<'_>,
    client: ClientNo,
    session: &SessionFacts,
    used: List<Privilege>,
    selected: Selected,
) -> Result<RowPlan, Memory>
    requires sound { IsSoundWorld world.now }
    requires planned { CanBePlanned world.now }
    ensures { IfOk result (λ plan. plan ≡ record { code = selected.code; used = used; reply = selected.reply; changes = []; fired = policies.fired (truth_over session.now world.now.catalog.now.tables) selected.code (row_facts (sight_of world.now client) selected) world.now.catalog.now.fga }) }
{
    let Selected {
        code,
        reply,
        touched,
        named,
    } = selected;
    let fired = fired(
        alloc,
        world,
        client,
        session,
        code,
        touched.as_slice(),
        named,
    )?;
    Ok(RowPlan {
        code,
        used,
        reply,
        changes: List::new(alloc),
        fired: List::from_vec(fired),
    })
}
