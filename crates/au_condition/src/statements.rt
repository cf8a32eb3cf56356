//! The condition in a statement.
ghost use Rattle.std.specs.Prelude.{◌≡◌, IfOk};
ghost use Rattle.au_condition.specs.Reading.{audit_condition, condition_read, read_where};

use crate::calls::in_call;
use crate::texts::over_none;
use au_base::{Memory, Name};
use au_entries::{ReadCondition, Table};
use sql_ast::{PolicyCondition, Statement};
use std::alloc::Global;

/// What becomes of the condition in the user's statement: that of a new audit policy is over no
/// table, that of a new fine-grained policy over the policy's table, which is sought among these.
/// `NotAsked` where there is none, the table isn't there or the call can't be read; `Bad` where its
/// text is no condition by itself, holds a `+`, a `*` or a `-` that is no sign before a number, or
/// has 2^32 bytes or more; `Wrong` with 904 or 918 of a column, or 932 of a wrong kind; else its
/// tree. The tables may stand in any order.
pub fn read_condition(
    alloc: Global,
    tables: &[Table],
    user: &Name,
    statement: &Statement,
) -> Result<ReadCondition, Memory>
    ensures { IfOk result (λ read. read ≡ condition_read tables.now user.now statement.now) }
{
    match statement {
        Statement::CreatePolicy(create) => in_audit_policy(alloc, &create.condition),
        Statement::Call(call) => in_call(alloc, tables, user, call),
        _ => Ok(ReadCondition::NotAsked),
    }
}

fn in_audit_policy(
    alloc: Global,
    condition: &Option<PolicyCondition>,
) -> Result<ReadCondition, Memory>
    ensures { IfOk result (λ read. read ≡ read_where (audit_condition condition.now)) }
{
    match condition {
        None => Ok(ReadCondition::NotAsked),
        Some(condition) => over_none(alloc, &condition.text),
    }
}
