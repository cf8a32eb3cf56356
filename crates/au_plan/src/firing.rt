//! The fine-grained policies that demand a record of a query.
ghost use Rattle.std.specs.Prelude.{◌≡◌, IfOk, map};
ghost use Rattle.au_audit.specs.Firing as policies;
ghost use Rattle.au_base.specs.Codes.{DONE};
ghost use Rattle.au_fga.specs.Testing.{truth_over};
ghost use Rattle.au_plan.specs.Inside.{query_facts};
ghost use Rattle.au_plan.specs.Planning.{CanBePlanned};
ghost use Rattle.au_world.specs.Plans.{cells_touched};
ghost use Rattle.au_world.specs.Sights.{sight_of};
ghost use Rattle.au_world.specs.Sound.{IsSoundWorld};

use crate::World;
use crate::lending::touched_rows;
use au_base::{Action, ClientNo, Code, List, Memory, Name, RowNo, TableName, same_is_equal};
use au_entries::FgaName;
use au_expr::SessionFacts;
use au_fga::{RowFacts, firing, refused_statements_fire_nothing};
use au_txn::{laid_rows_answer, rows_stand_by_tables};
use std::alloc::Global;

/// The fine-grained policies that demand a record of a query that comes to this code, touches these
/// rows and names these columns, in the order of their records.
pub fn fired(
    alloc: Global,
    world: &World<'_>,
    client: ClientNo,
    session: &SessionFacts,
    code: Code,
    touched: &[(TableName, List<RowNo>)],
    named: List<(TableName, List<Name>)>,
) -> Result<Vec<FgaName>, Memory>
    requires sound { IsSoundWorld world.now }
    requires planned { CanBePlanned world.now }
    ensures { IfOk result (λ names. names.items ≡ policies.fired (truth_over session.now world.now.catalog.now.tables) code (query_facts (map (cells_touched (sight_of world.now client)) touched.now) named) world.now.catalog.now.fga) }
{
    if code.0 != 0 {
        refused_statements_fire_nothing();
        return Ok(Vec::new(alloc));
    }
    let names = fired_when_done(alloc, world, client, session, touched, named)?;
    Ok(names)
}

fn fired_when_done(
    alloc: Global,
    world: &World<'_>,
    client: ClientNo,
    session: &SessionFacts,
    touched: &[(TableName, List<RowNo>)],
    named: List<(TableName, List<Name>)>,
) -> Result<Vec<FgaName>, Memory>
    requires sound { IsSoundWorld world.now }
    requires planned { CanBePlanned world.now }
    ensures { IfOk result (λ names. names.items ≡ policies.fired (truth_over session.now world.now.catalog.now.tables) DONE (query_facts (map (cells_touched (sight_of world.now client)) touched.now) named) world.now.catalog.now.fga) }
{
    same_is_equal();
    laid_rows_answer();
    rows_stand_by_tables();
    world.desk.holds_together();
    let policies = world.catalog.fga.as_slice();
    let touched = touched_rows(alloc, policies, world.desk, client, touched)?;
    let facts = RowFacts {
        action: Action::Select,
        touched,
        named,
    };
    let names = firing(alloc, world.catalog, &facts, session)?;
    Ok(names)
}
