//! What is decided of statements, by what a case lends.
ghost use Rattle.std.specs.Prelude.{◌≡◌, IfOk};
ghost use Rattle.au_admin.specs.Deciding as administration;
ghost use Rattle.au_calls.specs.Settings as auditing;
ghost use Rattle.au_condition.specs.Reading.{condition_read};
ghost use Rattle.au_define.specs.Deciding as definitions;
ghost use Rattle.au_define.specs.Settings as defining;
ghost use Rattle.au_ruling.specs.declared.kind.StatementKind.TheVariants as kinds;
ghost use Rattle.au_ruling.specs.Cases.{IsSorted, audit_setting_in, setting_in};
ghost use Rattle.au_ruling.specs.Kinds.{kind_of};

use crate::ruling_case::RulingCase;
use au_base::Memory;
use au_calls::AuditCase;
use au_condition::read_condition;
use au_define::Case;
use au_entries::{Decision, ReadCondition};
use sql_ast::Statement;
use std::alloc::Global;

/// What is decided of a statement on tables, users, roles or grants.
pub fn defined(
    alloc: Global,
    case: &RulingCase<'_>,
    statement: &Statement,
) -> Result<Decision, Memory>
    requires order { IsSorted case.now }
    requires definition { kind_of statement.now ≡ kinds.Definition }
    ensures { IfOk result (definitions.Decides (setting_in case.now) statement.now) }
{
    let case = defining_case(case);
    match au_define::decide(alloc, &case, statement)? {
        Some(decision) => Ok(decision),
        None => unreachable!(),
    }
}

/// What is decided of a statement on audit policies, or of a call of a package, by what its condition
/// is read as, where it has one.
pub fn administered(
    alloc: Global,
    case: &RulingCase<'_>,
    statement: &Statement,
) -> Result<Decision, Memory>
    requires order { IsSorted case.now }
    requires administration { kind_of statement.now ≡ kinds.Administration }
    ensures { IfOk result (administration.Decides (audit_setting_in case.now (condition_read case.now.catalog.now.tables case.now.session.now.user statement.now)) statement.now) }
{
    let tables = case.catalog.tables.as_slice();
    let read = read_condition(alloc, tables, case.session.user(), statement)?;
    let decision = administered_by(alloc, case, &read, statement)?;
    Ok(decision)
}

fn administered_by(
    alloc: Global,
    case: &RulingCase<'_>,
    read: &ReadCondition,
    statement: &Statement,
) -> Result<Decision, Memory>
    requires order { IsSorted case.now }
    requires administration { kind_of statement.now ≡ kinds.Administration }
    ensures { IfOk result (administration.Decides (audit_setting_in case.now read.now) statement.now) }
{
    let case = auditing_case(case, read);
    match au_admin::decide(alloc, &case, statement)? {
        Some(decision) => Ok(decision),
        None => unreachable!(),
    }
}

fn defining_case<'a>(case: &RulingCase<'a>) -> Case<'a>
    requires order { IsSorted case.now }
    ensures lent { defining.lent result ≡ setting_in case.now }
    ensures order { defining.IsSorted result }
{
    Case {
        users: case.catalog.users.as_slice(),
        roles: case.catalog.roles.as_slice(),
        tables: case.catalog.tables.as_slice(),
        grants: case.grants,
        user: case.session.user(),
        client: case.client,
        busy: case.busy,
    }
}

fn auditing_case<'a>(case: &RulingCase<'a>, read: &'a ReadCondition) -> AuditCase<'a>
    requires order { IsSorted case.now }
    ensures lent { auditing.lent result ≡ audit_setting_in case.now read.now }
    ensures order { defining.IsSorted result.case }
{
    AuditCase {
        case: defining_case(case),
        policies: case.catalog.policies.as_slice(),
        enabled: case.catalog.enabled.as_slice(),
        fga: case.catalog.fga.as_slice(),
        archive: case.catalog.archive,
        stamp: case.session.stamp(),
        read,
    }
}
