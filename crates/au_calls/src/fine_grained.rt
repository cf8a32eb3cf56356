//! How the calls of DBMS_FGA are decided.
ghost use Rattle.std.specs.Prelude.{◌≡◌, ◌∷◌, [], IfOk, Option, Some, find, option_map};
ghost use Rattle.std.specs.List.{list_any};
ghost use Rattle.std.specs.Option.{option_copied};
ghost use Rattle.std.specs.Str.{bytes_eq};
ghost use Rattle.au_calls.specs.FineGrained.{add_by, add_fga, columns_found, columns_of, disable_fga, drop_by, drop_fga, enable_fga, has_fga, has_unknown, is_so, lacks, new_fga, on_there, switch_by, switching, unread, with_enabled};
ghost use Rattle.au_calls.specs.Settings.{lent};
ghost use Rattle.au_base.specs.Sameness.{same_table};
ghost use Rattle.au_define.specs.Settings.{IsSorted};
ghost use Rattle.au_entries.specs.Changing.{is_fga};

use crate::arguments::{given, truth_in};
use crate::case::AuditCase;
use crate::reading::{is_bad, is_wrong, wrong_code};
use crate::requests::{FgaParts, parts_of, target_of};
use crate::rights::AuditRights;
use crate::rules::{changes_alone, decide_by};
use au_base::{Code, Column, List, Memory, Name, TableName, Text, is_same_table};
use au_define::{has_table, is_full};
use au_entries::{Change, Condition, Decision, FgaName, FgaPolicy, Table};
use sql_ast::{Argument, Parameter};
use std::alloc::Global;

/// What is decided of ADD_POLICY by a user with these rights.
pub fn add_fga(
    alloc: Global,
    case: &AuditCase<'_>,
    rights: AuditRights,
    arguments: &[Argument],
) -> Result<Decision, Memory>
    requires order { IsSorted case.now.case }
    ensures { IfOk result (λ decision. decision ≡ add_fga rights (lent case.now) arguments.now) }
{
    let target = target_of(alloc, case.case.user, arguments)?;
    let parts = parts_of(alloc, arguments)?;
    add_by(alloc, case, rights, &target, &parts)
}

fn add_by(
    alloc: Global,
    case: &AuditCase<'_>,
    rights: AuditRights,
    target: &Option<FgaName>,
    parts: &Option<FgaParts>,
) -> Result<Decision, Memory>
    requires order { IsSorted case.now.case }
    ensures { IfOk result (λ decision. decision ≡ add_by rights (lent case.now) target.now parts.now) }
{
    match target {
        None => unread(alloc, rights),
        Some(target) => match parts {
            None => unread(alloc, rights),
            Some(parts) => add_read(alloc, case, rights, target, parts),
        },
    }
}

fn add_read(
    alloc: Global,
    case: &AuditCase<'_>,
    rights: AuditRights,
    target: &FgaName,
    parts: &FgaParts,
) -> Result<Decision, Memory>
    requires order { IsSorted case.now.case }
    ensures { IfOk result (λ decision. decision ≡ add_by rights (lent case.now) (Some target.now) (Some parts.now)) }
{
    let others = [
        (!has_table(&case.case, &target.table), Code::NO_SUCH_TABLE),
        (has_fga(case, target), Code::FINE_GRAINED_POLICY_PRESENT),
        (
            has_unknown(case, &target.table, parts.columns.as_slice()),
            Code::UNKNOWN_COLUMN,
        ),
        (is_bad(case.read), Code::BAD_ARGUMENT),
        (is_wrong(case.read), wrong_code(case.read)),
        (is_full(case.fga.len()), Code::TOO_MANY_OBJECTS),
    ];
    let changes = new_fga(alloc, target, parts)?;
    let effect = changes_alone(alloc, changes);
    Ok(decide_by(alloc, !rights.admin, &others, List::new(alloc), effect))
}

/// What is decided of DROP_POLICY by a user with these rights.
pub fn drop_fga(
    alloc: Global,
    case: &AuditCase<'_>,
    rights: AuditRights,
    arguments: &[Argument],
) -> Result<Decision, Memory>
    requires order { IsSorted case.now.case }
    ensures { IfOk result (λ decision. decision ≡ drop_fga rights (lent case.now) arguments.now) }
{
    let target = target_of(alloc, case.case.user, arguments)?;
    drop_by(alloc, case, rights, &target)
}

fn drop_by(
    alloc: Global,
    case: &AuditCase<'_>,
    rights: AuditRights,
    target: &Option<FgaName>,
) -> Result<Decision, Memory>
    requires order { IsSorted case.now.case }
    ensures { IfOk result (λ decision. decision ≡ drop_by rights (lent case.now) target.now) }
{
    match target {
        None => unread(alloc, rights),
        Some(target) => {
            let changes = gone(alloc, target)?;
            Ok(on_there(alloc, case, rights, target, changes))
        }
    }
}

/// What is decided of ENABLE_POLICY by a user with these rights.
pub fn enable_fga(
    alloc: Global,
    case: &AuditCase<'_>,
    rights: AuditRights,
    arguments: &[Argument],
) -> Result<Decision, Memory>
    requires order { IsSorted case.now.case }
    ensures { IfOk result (λ decision. decision ≡ enable_fga rights (lent case.now) arguments.now) }
{
    let target = target_of(alloc, case.case.user, arguments)?;
    let on = truth_in(given(arguments, Parameter::Enable));
    switch_by(alloc, case, rights, &target, on)
}

/// What is decided of DISABLE_POLICY by a user with these rights.
pub fn disable_fga(
    alloc: Global,
    case: &AuditCase<'_>,
    rights: AuditRights,
    arguments: &[Argument],
) -> Result<Decision, Memory>
    requires order { IsSorted case.now.case }
    ensures { IfOk result (λ decision. decision ≡ disable_fga rights (lent case.now) arguments.now) }
{
    let target = target_of(alloc, case.case.user, arguments)?;
    switch_by(alloc, case, rights, &target, Some(false))
}

fn switch_by(
    alloc: Global,
    case: &AuditCase<'_>,
    rights: AuditRights,
    target: &Option<FgaName>,
    on: Option<bool>,
) -> Result<Decision, Memory>
    requires order { IsSorted case.now.case }
    ensures { IfOk result (λ decision. decision ≡ switch_by rights (lent case.now) target.now on) }
{
    match target {
        None => unread(alloc, rights),
        Some(target) => match on {
            None => unread(alloc, rights),
            Some(on) => {
                let changes = switching(alloc, case.fga, target, on)?;
                Ok(on_there(alloc, case, rights, target, changes))
            }
        },
    }
}

// What DROP_POLICY, ENABLE_POLICY and DISABLE_POLICY stand on: the table, and the policy on it.
fn on_there(
    alloc: Global,
    case: &AuditCase<'_>,
    rights: AuditRights,
    target: &FgaName,
    changes: List<Change>,
) -> Decision
    requires order { IsSorted case.now.case }
    ensures { result ≡ on_there rights (lent case.now) target.now changes }
{
    let others = [
        (!has_table(&case.case, &target.table), Code::NO_SUCH_TABLE),
        (!has_fga(case, target), Code::NO_SUCH_FINE_GRAINED_POLICY),
    ];
    let effect = changes_alone(alloc, changes);
    decide_by(alloc, !rights.admin, &others, List::new(alloc), effect)
}

// The arguments can't be read.
fn unread(alloc: Global, rights: AuditRights) -> Result<Decision, Memory>
    ensures { IfOk result (λ decision. decision ≡ unread rights) }
{
    let others = [(true, Code::BAD_ARGUMENT)];
    let effect = changes_alone(alloc, List::new(alloc));
    Ok(decide_by(alloc, !rights.admin, &others, List::new(alloc), effect))
}

fn has_fga(case: &AuditCase<'_>, target: &FgaName) -> bool
    ensures { result ≡ has_fga (lent case.now) target.now }
{
    some_fga(case.fga, target)
}

fn some_fga(policies: &[FgaPolicy], target: &FgaName) -> bool
    ensures { result ≡ list_any (is_fga target.now.table target.now.policy) policies.now }
{
    policies.iter().any(|policy| is_named(policy, target))
}

fn is_named(policy: &FgaPolicy, target: &FgaName) -> bool
    ensures { result ≡ is_fga target.now.table target.now.policy policy.now }
{
    is_same_table(&policy.name.table, &target.table) && policy.name.policy == target.policy
}

// Some of these is no column of the table.
fn has_unknown(case: &AuditCase<'_>, table: &TableName, names: &[Name]) -> bool
    ensures { result ≡ has_unknown (lent case.now) table.now names.now }
{
    some_unknown(columns_of(case.case.tables, table), names)
}

fn some_unknown(columns: &[Column], names: &[Name]) -> bool
    ensures { result ≡ list_any (lacks columns.now) names.now }
{
    names.iter().any(|name| lacks(columns, name))
}

fn lacks(columns: &[Column], name: &Name) -> bool
    ensures { result ≡ lacks columns.now name.now }
{
    !has_column(columns, name)
}

fn has_column(columns: &[Column], name: &Name) -> bool
    ensures { result ≡ list_any (λ column. bytes_eq column.name name.now) columns.now }
{
    columns.iter().any(|column| column.name == *name)
}

// The columns of the table of this name, none where it isn't there.
fn columns_of<'a>(tables: &'a [Table], name: &TableName) -> &'a [Column]
    ensures { result.now ≡ columns_of tables.now name.now }
{
    match table_of(tables, name) {
        Some(table) => table.columns.as_slice(),
        None => &[],
    }
}

fn table_of<'a>(tables: &'a [Table], name: &TableName) -> Option<&'a Table>
    ensures { option_copied result ≡ find (λ table. same_table table.name name.now) tables.now }
{
    tables.iter().find(|table| is_same_table(&table.name, name))
}

fn new_fga(alloc: Global, target: &FgaName, parts: &FgaParts) -> Result<List<Change>, Memory>
    ensures { IfOk result (λ changes. changes ≡ new_fga target.now parts.now ∷ []) }
{
    let table = target.table.clone()?;
    let policy = target.policy.clone()?;
    let condition = parts.condition.clone()?;
    let columns = parts.columns.clone()?;
    let mut changes = List::new(alloc);
    changes.push(Change::Fga {
        table,
        policy,
        condition,
        columns,
        all: parts.flags.all,
        types: parts.flags.types,
        enabled: parts.flags.enabled,
    })?;
    Ok(changes)
}

fn gone(alloc: Global, target: &FgaName) -> Result<List<Change>, Memory>
    ensures { IfOk result (λ changes. changes ≡ Change.FgaGone target.now.table target.now.policy ∷ []) }
{
    let table = target.table.clone()?;
    let policy = target.policy.clone()?;
    let mut changes = List::new(alloc);
    changes.push(Change::FgaGone(table, policy))?;
    Ok(changes)
}

// The policy as it stands, enabled or not, as a change, unless it is so already.
fn switching(
    alloc: Global,
    policies: &[FgaPolicy],
    target: &FgaName,
    on: bool,
) -> Result<List<Change>, Memory>
    ensures { IfOk result (λ changes. changes ≡ switching on (find (is_fga target.now.table target.now.policy) policies.now)) }
{
    match fga_found(policies, target) {
        None => Ok(List::new(alloc)),
        Some(policy) => unless_so(alloc, policy, on),
    }
}

fn fga_found<'a>(policies: &'a [FgaPolicy], target: &FgaName) -> Option<&'a FgaPolicy>
    ensures { option_copied result ≡ find (is_fga target.now.table target.now.policy) policies.now }
{
    policies.iter().find(|policy| is_named(policy, target))
}

fn unless_so(alloc: Global, policy: &FgaPolicy, on: bool) -> Result<List<Change>, Memory>
    ensures { IfOk result (λ changes. changes ≡ switching on (Some policy.now)) }
{
    if is_so(policy, on) {
        return Ok(List::new(alloc));
    }
    switched(alloc, policy, on)
}

fn is_so(policy: &FgaPolicy, on: bool) -> bool
    ensures { result ≡ is_so on policy.now }
{
    if on { policy.enabled } else { !policy.enabled }
}

fn switched(alloc: Global, policy: &FgaPolicy, on: bool) -> Result<List<Change>, Memory>
    ensures { IfOk result (λ changes. changes ≡ with_enabled on policy.now ∷ []) }
{
    let table = policy.name.table.clone()?;
    let name = policy.name.policy.clone()?;
    let condition = text_of(&policy.condition)?;
    let columns = policy.columns.clone()?;
    let mut changes = List::new(alloc);
    changes.push(Change::Fga {
        table,
        policy: name,
        condition,
        columns,
        all: policy.all,
        types: policy.types,
        enabled: on,
    })?;
    Ok(changes)
}

fn text_of(condition: &Option<Condition>) -> Result<Option<Text>, Memory>
    ensures { IfOk result (λ text. text ≡ option_map (λ condition. condition.text) condition.now) }
{
    match condition {
        None => Ok(None),
        Some(condition) => Ok(Some(condition.text.clone()?)),
    }
}
