//! The condition in a call of a package.
ghost use Rattle.std.specs.Prelude.{◌≡◌, IfOk};
ghost use Rattle.std.specs.Option.{option_copied};
ghost use Rattle.au_calls.specs.FineGrained.{parts_of, target_of};
ghost use Rattle.au_condition.specs.Reading.{call_condition, fga_condition, over_table, read_where, table_named};

use crate::texts::over_columns;
use au_base::{Memory, Name, TableName, Text, is_same_table};
use au_calls::{FgaParts, parts_of, target_of};
use au_entries::{FgaName, ReadCondition, Table};
use sql_ast::{Argument, Call, Procedure};
use std::alloc::Global;

/// What becomes of the condition in the user's call: that of ADD_POLICY is over the policy's table.
pub fn in_call(
    alloc: Global,
    tables: &[Table],
    user: &Name,
    call: &Call,
) -> Result<ReadCondition, Memory>
    ensures { IfOk result (λ read. read ≡ read_where (call_condition tables.now user.now call.now.procedure call.now.arguments)) }
{
    match call.procedure {
        Procedure::AddPolicy => in_new_policy(alloc, tables, user, call.arguments.as_slice()),
        Procedure::DropPolicy
        | Procedure::EnablePolicy
        | Procedure::DisablePolicy
        | Procedure::SetLastArchiveTimestamp
        | Procedure::ClearLastArchiveTimestamp
        | Procedure::CleanAuditTrail => Ok(ReadCondition::NotAsked),
    }
}

fn in_new_policy(
    alloc: Global,
    tables: &[Table],
    user: &Name,
    arguments: &[Argument],
) -> Result<ReadCondition, Memory>
    ensures { IfOk result (λ read. read ≡ read_where (fga_condition tables.now (target_of user.now arguments.now) (parts_of arguments.now))) }
{
    let target = target_of(alloc, user, arguments)?;
    let parts = parts_of(alloc, arguments)?;
    in_parts(alloc, tables, &target, &parts)
}

fn in_parts(
    alloc: Global,
    tables: &[Table],
    target: &Option<FgaName>,
    parts: &Option<FgaParts>,
) -> Result<ReadCondition, Memory>
    ensures { IfOk result (λ read. read ≡ read_where (fga_condition tables.now target.now parts.now)) }
{
    match (target, parts) {
        (Some(target), Some(parts)) => {
            let table = table_named(tables, &target.table);
            over_table(alloc, table, &parts.condition)
        }
        _ => Ok(ReadCondition::NotAsked),
    }
}

// A scan: nothing is asked of the order of the tables.
fn table_named<'a>(tables: &'a [Table], name: &TableName) -> Option<&'a Table>
    ensures { option_copied result ≡ table_named tables.now name.now }
{
    tables.iter().find(|table| is_same_table(&table.name, name))
}

fn over_table(
    alloc: Global,
    table: Option<&Table>,
    text: &Option<Text>,
) -> Result<ReadCondition, Memory>
    ensures { IfOk result (λ read. read ≡ read_where (over_table (option_copied table.entry) text.now)) }
{
    match (table, text) {
        (Some(table), Some(text)) => over_columns(alloc, table, text),
        _ => Ok(ReadCondition::NotAsked),
    }
}
