//! The fine-grained policies that demand a record of INSERT, UPDATE and DELETE.
ghost use Rattle.std.specs.Prelude.{◌≡◌, ◌∷◌, [], IfOk, flat_map};
ghost use Rattle.au_audit.specs.Firing as policies;
ghost use Rattle.au_base.specs.Codes.{DONE};
ghost use Rattle.au_fga.specs.Testing.{RowsFit, truth_over};
ghost use Rattle.au_plan.specs.Inside.{change_facts};
ghost use Rattle.au_plan.specs.Planning.{CanBePlanned};
ghost use Rattle.au_plan.specs.Plans.{contents_in};

use crate::World;
use crate::lending::contents_of;
use crate::watching::is_watched;
use au_base::{Action, Code, List, Memory, Name, TableName, same_is_equal};
use au_entries::FgaName;
use au_expr::SessionFacts;
use au_fga::{RowFacts, firing, refused_statements_fire_nothing};
use au_txn::RowChange;
use std::alloc::Global;

/// The fine-grained policies that demand a record of a statement that comes to this code, makes these
/// changes of rows of one table, and references these columns of it, in the order of their records.
/// The rows are lent by the changes.
pub fn fired_by_changes(
    alloc: Global,
    world: &World<'_>,
    session: &SessionFacts,
    code: Code,
    action: Action,
    changes: &[RowChange],
    named: (TableName, List<Name>),
) -> Result<Vec<FgaName>, Memory>
    requires planned { CanBePlanned world.now }
    requires fit { RowsFit world.now.catalog.now.tables ((named.0, flat_map contents_in changes.now) ∷ []) }
    ensures { IfOk result (λ names. names.items ≡ policies.fired (truth_over session.now world.now.catalog.now.tables) code (change_facts action named changes.now) world.now.catalog.now.fga) }
{
    same_is_equal();
    refused_statements_fire_nothing();
    if code.0 != 0 {
        return Ok(Vec::new(alloc));
    }
    if !is_watched(world.catalog.fga.as_slice(), action, &named.0) {
        return Ok(Vec::new(alloc));
    }
    let names = fired_when_done(alloc, world, session, action, changes, named)?;
    Ok(names)
}

fn fired_when_done(
    alloc: Global,
    world: &World<'_>,
    session: &SessionFacts,
    action: Action,
    changes: &[RowChange],
    named: (TableName, List<Name>),
) -> Result<Vec<FgaName>, Memory>
    requires planned { CanBePlanned world.now }
    requires fit { RowsFit world.now.catalog.now.tables ((named.0, flat_map contents_in changes.now) ∷ []) }
    ensures { IfOk result (λ names. names.items ≡ policies.fired (truth_over session.now world.now.catalog.now.tables) DONE (change_facts action named changes.now) world.now.catalog.now.fga) }
{
    let mut touched = List::new(alloc);
    touched.push((named.0.clone()?, contents_of(alloc, changes)?))?;
    let mut referenced = List::new(alloc);
    referenced.push(named)?;
    let facts = RowFacts {
        action,
        touched,
        named: referenced,
    };
    let names = firing(alloc, world.catalog, &facts, session)?;
    Ok(names)
}
