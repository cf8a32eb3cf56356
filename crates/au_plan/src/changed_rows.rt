//! The law that contents of changed rows fit their table.
ghost use Rattle.std.specs.Prelude.{◌≡◌, ◌∷◌, [], IsTrue, flat_map};
ghost use Rattle.au_base.specs.declared.numbers.ClientNo.{ClientNo as Client};
ghost use Rattle.au_base.specs.declared.table.TableName.{TableName as Table};
ghost use Rattle.au_change.specs.Deleting.{IsDeletion};
ghost use Rattle.au_change.specs.Updating.{IsUpdate};
ghost use Rattle.au_expr.specs.Sessions.{Session};
ghost use Rattle.au_fga.specs.Testing.{RowsFit};
ghost use Rattle.au_insert.specs.Inserting.{IsInsertion};
ghost use Rattle.au_modify.specs.declared.modification.Modification.{Modification as Made};
ghost use Rattle.au_plan.specs.Inside.{IsOfCatalog};
ghost use Rattle.au_plan.specs.Planning.{CanBePlanned};
ghost use Rattle.au_plan.specs.Plans.{contents_in};
ghost use Rattle.au_txn.specs.Rows.{are_in_order};
ghost use Rattle.au_world.specs.declared.world.World.{World as State};
ghost use Rattle.au_world.specs.Sights.{sight_of};
ghost use Rattle.au_world.specs.Sound.{IsSoundWorld};
ghost use Rattle.sql_ast.specs.declared.rows.Delete.{Delete as Deleting};
ghost use Rattle.sql_ast.specs.declared.rows.Insert.{Insert as Inserting};
ghost use Rattle.sql_ast.specs.declared.rows.Update.{Update as Updating};

use au_base::same_is_equal;
use au_txn::{laid_rows_answer, rows_stand_by_tables};

/// What INSERT, UPDATE and DELETE make of rows of a created table fits its columns, and so does what
/// stood there. It does nothing, and states the law for its callers.
pub fn changed_rows_fit()
    ensures inserted { (world : State) (client : Client) (session : Session) (table : Table) (insert : Inserting) (made : Made)
        → IsSoundWorld world → CanBePlanned world → IsOfCatalog world.catalog.now.tables table
        → IsInsertion (sight_of world client) client session table insert made → RowsFit world.catalog.now.tables ((table, flat_map contents_in made.changes) ∷ []) }
    ensures updated { (world : State) (client : Client) (session : Session) (table : Table) (update : Updating) (made : Made)
        → IsSoundWorld world → CanBePlanned world → IsTrue (are_in_order world.desk.now.rows) → IsOfCatalog world.catalog.now.tables table
        → IsUpdate (sight_of world client) client session table update made → RowsFit world.catalog.now.tables ((table, flat_map contents_in made.changes) ∷ []) }
    ensures deleted { (world : State) (client : Client) (session : Session) (table : Table) (delete : Deleting) (made : Made)
        → IsSoundWorld world → CanBePlanned world → IsTrue (are_in_order world.desk.now.rows) → IsOfCatalog world.catalog.now.tables table
        → IsDeletion (sight_of world client) client session table delete made → RowsFit world.catalog.now.tables ((table, flat_map contents_in made.changes) ∷ []) }
{
    same_is_equal();
    laid_rows_answer();
    rows_stand_by_tables();
}
