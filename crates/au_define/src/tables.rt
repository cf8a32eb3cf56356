//! How CREATE TABLE and DROP TABLE are decided.
ghost use Rattle.std.specs.Prelude.{◌≡◌, ◌≤◌, ◌&&◌, ◌||◌, ◌==◌, ◌∷◌, [], not, nat_lt, IfOk, length};
ghost use Rattle.std.specs.List.{list_any};
ghost use Rattle.au_base.specs.BuiltIn.{dual, trail};
ghost use Rattle.au_base.specs.Limits.{TABLE_COLUMNS};
ghost use Rattle.au_base.specs.Sameness.{same_table};
ghost use Rattle.au_entries.specs.declared.change.Change.{Change};
ghost use Rattle.au_define.specs.Columns.{key_names, made_columns, made_key, names_of};
ghost use Rattle.au_define.specs.Settings.{IsSorted, has_user, is_full, lent};
ghost use Rattle.au_define.specs.Tables.{DecidesCreateTable, DecidesCreating, DecidesDropTable, DecidesDropping, create_table, creating_by, creating_rules, drop_table, is_changed, is_own, is_used, may_not_create};

use crate::case::Case;
use crate::columns::{
    columns_of, has_column_twice, has_second_key, has_unknown, key_names, made_columns, made_key,
    names_of,
};
use crate::creating::Creating;
use crate::looking::{has_table, has_user, is_full};
use crate::rules::{decide_by, is_refused, needed, only, refuse_by};
use au_base::built_in::{DUAL, UNIFIED_AUDIT_TRAIL};
use au_base::limits::TABLE_COLUMNS;
use au_base::{
    ClientNo, Code, List, Memory, Name, Privilege, TableName, TableReference, is_same_table,
    same_is_equal,
};
use au_entries::{Change, Decision};
use au_priv::refusal;
use sql_ast::{CreateTable, Element};
use std::alloc::Global;

/// What is decided of CREATE TABLE.
pub fn create_table(
    alloc: Global,
    case: &Case<'_>,
    statement: &CreateTable,
) -> Result<Decision, Memory>
    requires order { IsSorted case.now }
    ensures { IfOk result (DecidesCreateTable (lent case.now) statement.now) }
{
    let table = statement.table.resolved(alloc, case.user)?;
    create_on(alloc, case, &table, statement.elements.as_slice())
}

fn create_on(
    alloc: Global,
    case: &Case<'_>,
    table: &TableName,
    elements: &[Element],
) -> Result<Decision, Memory>
    requires order { IsSorted case.now }
    ensures { IfOk result (DecidesCreating (lent case.now) table.now elements.now) }
{
    let held = Creating {
        own: case
            .grants
            .holds_privilege(case.user, Privilege::CreateTable),
        any: case
            .grants
            .holds_privilege(case.user, Privilege::CreateAnyTable),
    };
    create_table_by(alloc, case, held, table, elements)
}

fn create_table_by(
    alloc: Global,
    case: &Case<'_>,
    held: Creating,
    table: &TableName,
    elements: &[Element],
) -> Result<Decision, Memory>
    requires order { IsSorted case.now }
    ensures { IfOk result (λ decision. decision ≡ create_table held (lent case.now) table.now elements.now) }
{
    let rights = [(may_not_create(case, held, table), Code::PRIVILEGE_MISSING)];
    let used = needed(alloc, false, creating_by(case, held, table))?;
    let names = names_of(alloc, elements)?;
    let key = key_names(alloc, elements)?;
    let others = creating_rules(
        alloc,
        case,
        table,
        elements,
        names.as_slice(),
        key.as_slice(),
    )?;
    if is_refused(&rights, &others) {
        return Ok(refuse_by(alloc, &rights, &others, used));
    }
    let changes = new_table(alloc, table, elements, names.as_slice(), key.as_slice())?;
    Ok(decide_by(alloc, &rights, &others, used, changes))
}

// The rules behind the one on rights. The names are those of the columns, and of the key's columns.
fn creating_rules(
    alloc: Global,
    case: &Case<'_>,
    table: &TableName,
    elements: &[Element],
    names: &[Name],
    key: &[Name],
) -> Result<[(bool, Code); 6], Memory>
    requires order { IsSorted case.now }
    requires names { names.now ≡ names_of elements.now }
    requires key { key.now ≡ key_names elements.now }
    ensures { IfOk result (λ rules. rules ≡ creating_rules (lent case.now) table.now elements.now) }
{
    let twice = has_column_twice(alloc, names, elements)?;
    Ok([
        (is_without_owner(case, table), Code::NO_SUCH_USER),
        (is_used(case, table), Code::NAME_USED),
        (twice, Code::COLUMN_TWICE),
        (has_second_key(elements), Code::SECOND_PRIMARY_KEY),
        (has_unknown(names, key), Code::UNKNOWN_COLUMN),
        (has_too_many(case, names), Code::TOO_MANY_OBJECTS),
    ])
}

fn new_table(
    alloc: Global,
    table: &TableName,
    elements: &[Element],
    names: &[Name],
    key: &[Name],
) -> Result<List<Change>, Memory>
    requires names { names.now ≡ names_of elements.now }
    requires key { key.now ≡ key_names elements.now }
    requires few { length names.now ≤ TABLE_COLUMNS }
    ensures { IfOk result (λ changes. changes ≡ Change.Table table.now (made_columns elements.now) (made_key elements.now) ∷ []) }
{
    let columns = columns_of(alloc, elements)?;
    let made = made_columns(alloc, columns.as_slice(), key)?;
    let places = made_key(alloc, names, key)?;
    only(alloc, Change::Table(table.clone()?, made, places))
}

fn is_own(case: &Case<'_>, table: &TableName) -> bool
    ensures { result ≡ is_own (lent case.now) table.now }
{
    table.owner == *case.user
}

fn may_not_create(case: &Case<'_>, held: Creating, table: &TableName) -> bool
    ensures { result ≡ may_not_create held (lent case.now) table.now }
{
    !held.any && !(is_own(case, table) && held.own)
}

fn creating_by(case: &Case<'_>, held: Creating, table: &TableName) -> Privilege
    ensures { result ≡ creating_by held (lent case.now) table.now }
{
    if is_own(case, table) && held.own {
        Privilege::CreateTable
    } else {
        Privilege::CreateAnyTable
    }
}

// Another schema whose user isn't there.
fn is_without_owner(case: &Case<'_>, table: &TableName) -> bool
    requires order { IsSorted case.now }
    ensures { result ≡ (not (is_own (lent case.now) table.now) && not (has_user (lent case.now) table.now.owner)) }
{
    !is_own(case, table) && !has_user(case, &table.owner)
}

// A table is there, or the name is that of a built-in one.
fn is_used(case: &Case<'_>, table: &TableName) -> bool
    requires order { IsSorted case.now }
    ensures { result ≡ is_used (lent case.now) table.now }
{
    has_table(case, table)
        || table.name.as_str() == DUAL
        || table.name.as_str() == UNIFIED_AUDIT_TRAIL
}

// No room for one more table, or for columns of these names.
fn has_too_many(case: &Case<'_>, names: &[Name]) -> bool
    ensures { result ≡ (is_full (length case.now.tables.now) || nat_lt TABLE_COLUMNS (length names.now)) }
{
    is_full(case.tables.len()) || TABLE_COLUMNS < names.len()
}

/// What is decided of DROP TABLE.
pub fn drop_table(
    alloc: Global,
    case: &Case<'_>,
    table: &TableReference,
) -> Result<Decision, Memory>
    requires order { IsSorted case.now }
    ensures { IfOk result (DecidesDropTable (lent case.now) table.now) }
{
    let table = table.resolved(alloc, case.user)?;
    drop_on(alloc, case, &table)
}

fn drop_on(alloc: Global, case: &Case<'_>, table: &TableName) -> Result<Decision, Memory>
    requires order { IsSorted case.now }
    ensures { IfOk result (DecidesDropping (lent case.now) table.now) }
{
    let held = case
        .grants
        .holds_privilege(case.user, Privilege::DropAnyTable);
    let refusal = refusal(case.grants, case.user, table);
    drop_table_by(alloc, case, held, refusal, table)
}

fn drop_table_by(
    alloc: Global,
    case: &Case<'_>,
    held: bool,
    refusal: Code,
    table: &TableName,
) -> Result<Decision, Memory>
    requires order { IsSorted case.now }
    ensures { IfOk result (λ decision. decision ≡ drop_table held refusal (lent case.now) table.now) }
{
    let own = is_own(case, table);
    let rights = [
        (is_trail(table), Code::TRAIL_READ_ONLY),
        (is_dual(table), Code::PRIVILEGE_MISSING),
        (!has_table(case, table), Code::NO_SUCH_TABLE),
        (!own && !held, refusal),
    ];
    let others = [(is_changed(case, table), Code::LOCKED)];
    let used = needed(alloc, own, Privilege::DropAnyTable)?;
    let changes = only(alloc, Change::TableGone(table.clone()?))?;
    Ok(decide_by(alloc, &rights, &others, used, changes))
}

fn is_trail(table: &TableName) -> bool
    ensures { result ≡ same_table table.now trail }
{
    same_is_equal();
    table.is_trail()
}

fn is_dual(table: &TableName) -> bool
    ensures { result ≡ same_table table.now dual }
{
    same_is_equal();
    table.is_dual()
}

// Another client has an unsettled change in the table.
fn is_changed(case: &Case<'_>, table: &TableName) -> bool
    ensures { result ≡ is_changed (lent case.now) table.now }
{
    is_changed_by_other(case.busy.tables.as_slice(), case.client, table)
}

fn is_changed_by_other(
    changed: &[(TableName, ClientNo)],
    client: ClientNo,
    table: &TableName,
) -> bool
    ensures { result ≡ list_any (λ entry. same_table entry.0 table.now && not (entry.1.0 == client.0)) changed.now }
{
    changed.iter().any(|entry| is_same_table(&entry.0, table) && entry.1.0 != client.0)
}
