//! Changes of fine-grained policies.
ghost use Rattle.std.specs.Prelude.{◌≡◌, ◌↔◌, IfOk, IsTrue, Option};
ghost use Rattle.au_entries.specs.declared.change.Change.TheVariants as change;
ghost use Rattle.au_entries.specs.declared.table.Table.{Table as AnyTable};
ghost use Rattle.au_entries.specs.Replaying.{IsFgaCondition, IsKeptTable};
ghost use Rattle.au_replay.specs.Reading.{IsShortText, conditions};
ghost use Rattle.au_replay.specs.Sights.{Goes, IsSorted, shown};

use crate::conditions::is_fga_condition;
use crate::finding::{find_table, has_fga};
use crate::sight::Sight;
use au_base::{Memory, Name, TableName, Text};
use au_entries::Table;
use std::alloc::Global;

/// Whether the fine-grained policy of the table may be put: the table is there, and the policy's
/// condition, where it has one, can be read and is a truth over the table's columns.
pub fn fga_goes_on(
    alloc: Global,
    sight: &Sight<'_>,
    table: &TableName,
    condition: &Option<Text>,
) -> Result<bool, Memory>
    requires order { IsSorted sight.now }
    requires short { IsShortText condition.now }
    ensures { IfOk result (λ goes. IsTrue goes ↔ ((found : AnyTable) × IsKeptTable (shown sight.now) table.now found × IsFgaCondition conditions found condition.now)) }
{
    match find_table(sight.tables, table) {
        None => Ok(false),
        Some(found) => is_condition_over(alloc, found, condition),
    }
}

// Whether the condition, where there is one, can be read and is a truth over the table's columns.
fn is_condition_over(alloc: Global, table: &Table, condition: &Option<Text>) -> Result<bool, Memory>
    requires short { IsShortText condition.now }
    ensures { IfOk result (λ holds. IsTrue holds ↔ IsFgaCondition conditions table.now condition.now) }
{
    match condition {
        None => Ok(true),
        Some(text) => is_fga_condition(alloc, table, text.as_bytes()),
    }
}

/// Whether the fine-grained policy of the table may be dropped: it is there.
pub fn fga_gone_goes_on(sight: &Sight<'_>, table: &TableName, policy: &Name) -> bool
    requires order { IsSorted sight.now }
    ensures { IsTrue result ↔ Goes sight.now (change.FgaGone table.now policy.now) }
{
    has_fga(sight.fga, table, policy)
}
