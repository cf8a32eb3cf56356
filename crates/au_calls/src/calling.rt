//! What is decided of the calls of packages.
ghost use Rattle.std.specs.Prelude.{◌≡◌, IfOk};
ghost use Rattle.au_calls.specs.Calling.{DecidesCall, call_decided};
ghost use Rattle.au_calls.specs.Settings.{lent};
ghost use Rattle.au_define.specs.Settings.{IsSorted};

use crate::archiving::{clean_trail, clear_archive, set_archive};
use crate::case::AuditCase;
use crate::fine_grained::{add_fga, disable_fga, drop_fga, enable_fga};
use crate::rights::{AuditRights, rights_of};
use au_base::Memory;
use au_entries::Decision;
use sql_ast::{Argument, Call, Procedure};
use std::alloc::Global;

/// What is decided of a call of a package.
pub fn call(alloc: Global, case: &AuditCase<'_>, statement: &Call) -> Result<Decision, Memory>
    requires order { IsSorted case.now.case }
    ensures { IfOk result (DecidesCall (lent case.now) statement.now) }
{
    let rights = rights_of(alloc, case)?;
    let arguments = statement.arguments.as_slice();
    call_by(alloc, case, rights, statement.procedure, arguments)
}

fn call_by(
    alloc: Global,
    case: &AuditCase<'_>,
    rights: AuditRights,
    procedure: Procedure,
    arguments: &[Argument],
) -> Result<Decision, Memory>
    requires order { IsSorted case.now.case }
    ensures { IfOk result (λ decision. decision ≡ call_decided rights (lent case.now) procedure arguments.now) }
{
    match procedure {
        Procedure::AddPolicy => add_fga(alloc, case, rights, arguments),
        Procedure::DropPolicy => drop_fga(alloc, case, rights, arguments),
        Procedure::EnablePolicy => enable_fga(alloc, case, rights, arguments),
        Procedure::DisablePolicy => disable_fga(alloc, case, rights, arguments),
        Procedure::SetLastArchiveTimestamp => set_archive(alloc, case, rights, arguments),
        Procedure::ClearLastArchiveTimestamp => clear_archive(alloc, case, rights, arguments),
        Procedure::CleanAuditTrail => Ok(clean_trail(alloc, case, rights, arguments)),
    }
}
