//! What is decided of the statements on audit policies, and of the calls of packages.
ghost use Rattle.std.specs.Prelude.{◌≡◌, IfOk, MatchOption, false};
ghost use Rattle.au_admin.specs.Deciding.{Decides, is_administration};
ghost use Rattle.au_calls.specs.Settings.{lent};
ghost use Rattle.au_define.specs.Settings.{IsSorted};

use crate::enabling::{audit, noaudit};
use crate::policies::{create_policy, drop_policy};
use au_base::Memory;
use au_calls::{AuditCase, call};
use au_entries::Decision;
use sql_ast::Statement;
use std::alloc::Global;

/// What is decided of a statement on audit policies, or of a call of a package. `None` exactly where
/// it is another one.
pub fn decide(
    alloc: Global,
    case: &AuditCase<'_>,
    statement: &Statement,
) -> Result<Option<Decision>, Memory>
    requires order { IsSorted case.now.case }
    ensures { IfOk result (λ answer. MatchOption answer (is_administration statement.now ≡ false) (Decides (lent case.now) statement.now)) }
{
    match statement {
        Statement::CreatePolicy(create) => Ok(Some(create_policy(alloc, case, create)?)),
        Statement::DropPolicy { policy } => Ok(Some(drop_policy(alloc, case, policy)?)),
        Statement::Audit(statement) => Ok(Some(audit(alloc, case, statement)?)),
        Statement::Noaudit { policy, users } => Ok(Some(noaudit(alloc, case, policy, users)?)),
        Statement::Call(statement) => Ok(Some(call(alloc, case, statement)?)),
        _ => Ok(None),
    }
}
