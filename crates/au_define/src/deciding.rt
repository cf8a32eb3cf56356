//! What is decided of the statements on tables, users, roles and grants.
ghost use Rattle.std.specs.Prelude.{◌≡◌, IfOk, MatchOption, false};
ghost use Rattle.au_define.specs.Deciding.{Decides, is_definition};
ghost use Rattle.au_define.specs.Settings.{IsSorted, lent};

use crate::case::Case;
use crate::granting::grant;
use crate::roles::{create_role, drop_role};
use crate::tables::{create_table, drop_table};
use crate::users::{alter_user, create_user, drop_user};
use au_base::Memory;
use au_entries::Decision;
use sql_ast::Statement;
use std::alloc::Global;

/// What is decided of a statement on tables, users, roles or grants. `None` exactly where it is
/// another one.
pub fn decide(
    alloc: Global,
    case: &Case<'_>,
    statement: &Statement,
) -> Result<Option<Decision>, Memory>
    requires order { IsSorted case.now }
    ensures { IfOk result (λ answer. MatchOption answer (is_definition statement.now ≡ false) (Decides (lent case.now) statement.now)) }
{
    match statement {
        Statement::CreateTable(create) => Ok(Some(create_table(alloc, case, create)?)),
        Statement::DropTable { table } => Ok(Some(drop_table(alloc, case, table)?)),
        Statement::CreateUser { user, password } => {
            Ok(Some(create_user(alloc, case, user, password)?))
        }
        Statement::AlterUser { user, password } => {
            Ok(Some(alter_user(alloc, case, user, password)?))
        }
        Statement::DropUser { user } => Ok(Some(drop_user(alloc, case, user)?)),
        Statement::CreateRole { role } => Ok(Some(create_role(alloc, case, role)?)),
        Statement::DropRole { role } => Ok(Some(drop_role(alloc, case, role)?)),
        Statement::Grant(statement) => Ok(Some(grant(alloc, case, statement)?)),
        _ => Ok(None),
    }
}
