//! What comes of a statement on rows.
ghost use Rattle.std.specs.Prelude.{◌≡◌, [], IfOk};
ghost use Rattle.au_fga.specs.Testing.{truth_over};
ghost use Rattle.au_plan.specs.Planning.{CanBePlanned};
ghost use Rattle.au_plan.specs.Plans.{IsOnRows, IsPlanOf};
ghost use Rattle.au_txn.specs.Desks.{laid_by};
ghost use Rattle.au_world.specs.Sights.{sight_of};
ghost use Rattle.au_world.specs.Sound.{IsSoundWorld};

use crate::changing::{delete_plan, insert_plan, update_plan};
use crate::querying::query_plan;
use crate::{RowPlan, World};
use au_base::{ClientNo, Memory};
use au_expr::SessionFacts;
use sql_ast::Statement;
use std::alloc::Global;

/// What comes of a client's SELECT, COUNT, INSERT, UPDATE or DELETE over the world, before anything
/// is done: first by the right to do so with each table that it names, then by what it answers or
/// what it makes of rows. Where the right is missing, the plan has the code alone. The privileges
/// that make it possible are used also where the statement is refused later. `Memory` is the only
/// error.
///
/// A query costs what it costs itself, one test of each fine-grained policy for each table of FROM,
/// and where such a policy is enabled for SELECT on a table, one look-up of each row that the query
/// touches of it. The others cost what they cost themselves, and where such a policy is enabled for
/// their action on the table, a test of the old and the new rows until one meets its condition. No
/// cell is copied, and rows of other tables aren't looked up.
pub fn plan(
    alloc: Global,
    world: World<'_>,
    client: ClientNo,
    session: &SessionFacts,
    statement: &Statement,
) -> Result<RowPlan, Memory>
    requires sound { IsSoundWorld world }
    requires planned { CanBePlanned world }
    requires laid { laid_by client world.desk.now.laid ≡ [] }
    requires on_rows { IsOnRows statement.now }
    ensures { IfOk result (IsPlanOf (truth_over session.now world.entry.catalog.now.tables) (sight_of world.entry client) client session.now statement.now) }
{
    match statement {
        Statement::Select(_) => query_plan(alloc, &world, client, session, statement),
        Statement::Count(_) => query_plan(alloc, &world, client, session, statement),
        Statement::Insert(insert) => insert_plan(alloc, &world, client, session, insert),
        Statement::Update(update) => update_plan(alloc, &world, client, session, update),
        Statement::Delete(delete) => delete_plan(alloc, &world, client, session, delete),
        _ => unreachable!(),
    }
}
