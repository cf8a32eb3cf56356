//! What auditing asks of a statement.
ghost use Rattle.std.specs.Prelude.{◌≡◌, ◌++◌, ◌∷◌, [], IfOk, OnOk, Option, Some, None, IsUtf8, codes, map};
ghost use Rattle.au_base.specs.BuiltIn.{resolved_table};
ghost use Rattle.sql_ast.specs.Procedures.{package_of};
ghost use Rattle.au_audit.specs.Statements.{IsPasswordIn, IsPlaced, action_of, first_object, from_tables, grant_action, grant_tables, object_of, recorded_text, tables_of, without_password, written_tables};

use au_base::{Action, List, Memory, Name, TableName, TableReference, Text};
use sql_ast::{FromClause, GrantStatement, Join, Password, Procedure, Statement};
use std::alloc::Global;

/// The action as which the statement is audited.
pub fn action_of(statement: &Statement) -> Action
    ensures { result ≡ action_of statement.now }
{
    match statement {
        Statement::Select(_) | Statement::Count(_) => Action::Select,
        Statement::Insert(_) => Action::Insert,
        Statement::Update(_) => Action::Update,
        Statement::Delete(_) => Action::Delete,
        Statement::Commit => Action::Commit,
        Statement::Rollback => Action::Rollback,
        Statement::CreateTable(_) => Action::CreateTable,
        Statement::DropTable { .. } => Action::DropTable,
        Statement::CreateUser { .. } => Action::CreateUser,
        Statement::AlterUser { .. } => Action::AlterUser,
        Statement::DropUser { .. } => Action::DropUser,
        Statement::CreateRole { .. } => Action::CreateRole,
        Statement::DropRole { .. } => Action::DropRole,
        Statement::Grant(grant) => grant_action(grant),
        Statement::CreatePolicy(_) => Action::CreateAuditPolicy,
        Statement::DropPolicy { .. } => Action::DropAuditPolicy,
        Statement::Audit(_) => Action::Audit,
        Statement::Noaudit { .. } => Action::Noaudit,
        Statement::Call(_) => Action::Execute,
    }
}

fn grant_action(grant: &GrantStatement) -> Action
    ensures { result ≡ grant_action grant.now }
{
    match grant {
        GrantStatement::Grant { .. } | GrantStatement::GrantObject { .. } => Action::Grant,
        GrantStatement::Revoke { .. } | GrantStatement::RevokeObject { .. } => Action::Revoke,
    }
}

/// The tables that the user's statement names, whether they are there or not: those in FROM, the
/// target of INSERT, UPDATE and DELETE, and the table of CREATE TABLE, DROP TABLE, GRANT .. ON and
/// REVOKE .. ON.
pub fn tables_of(
    alloc: Global,
    user: &Name,
    statement: &Statement,
) -> Result<List<TableName>, Memory>
    ensures { IfOk result (λ tables. tables ≡ tables_of user.now statement.now) }
{
    match statement {
        Statement::Select(select) => all_in(alloc, user, &select.from),
        Statement::Count(count) => one_table(alloc, user, &count.table.table),
        Statement::Insert(insert) => one_table(alloc, user, &insert.table),
        Statement::Update(update) => one_table(alloc, user, &update.table),
        Statement::Delete(delete) => one_table(alloc, user, &delete.table),
        Statement::CreateTable(create) => one_table(alloc, user, &create.table),
        Statement::DropTable { table } => one_table(alloc, user, table),
        Statement::Grant(grant) => granted_table(alloc, user, grant),
        _ => Ok(List::new(alloc)),
    }
}

fn one_table(alloc: Global, user: &Name, table: &TableReference) -> Result<List<TableName>, Memory>
    ensures { IfOk result (λ tables. tables ≡ resolved_table user.now table.now ∷ []) }
{
    let mut tables = List::new(alloc);
    tables.push(table.resolved(alloc, user)?)?;
    Ok(tables)
}

fn granted_table(
    alloc: Global,
    user: &Name,
    grant: &GrantStatement,
) -> Result<List<TableName>, Memory>
    ensures { IfOk result (λ tables. tables ≡ map (resolved_table user.now) (grant_tables grant.now)) }
{
    match grant {
        GrantStatement::GrantObject { table, .. } | GrantStatement::RevokeObject { table, .. } => {
            one_table(alloc, user, table)
        }
        GrantStatement::Grant { .. } | GrantStatement::Revoke { .. } => Ok(List::new(alloc)),
    }
}

fn all_in(alloc: Global, user: &Name, from: &FromClause) -> Result<List<TableName>, Memory>
    ensures { IfOk result (λ tables. tables ≡ map (resolved_table user.now) (from_tables from.now)) }
{
    let mut tables = one_table(alloc, user, &from.first.table)?;
    push_joined(alloc, &mut tables, user, from.joins.as_slice())?;
    Ok(tables)
}

fn push_joined(
    alloc: Global,
    tables: &mut List<TableName>,
    user: &Name,
    joins: &[Join],
) -> Result<(), Memory>
    ensures { OnOk result (tables.new ≡ tables.old ++ map (resolved_table user.now) (map (λ join. join.table.table) joins.now)) }
{
    for join in joins {
        tables.push(join.table.table.resolved(alloc, user)?)?;
    }
    Ok(())
}

/// The object that the record of the user's statement names, behind its owner where it has one.
pub fn object_of(
    alloc: Global,
    user: &Name,
    statement: &Statement,
) -> Result<Option<(Option<Name>, Name)>, Memory>
    ensures { IfOk result (λ object. object ≡ object_of user.now statement.now) }
{
    match statement {
        Statement::CreateUser { user: name, .. }
        | Statement::AlterUser { user: name, .. }
        | Statement::DropUser { user: name }
        | Statement::CreateRole { role: name }
        | Statement::DropRole { role: name }
        | Statement::DropPolicy { policy: name }
        | Statement::Noaudit { policy: name, .. } => lone(name),
        Statement::CreatePolicy(create) => lone(&create.policy),
        Statement::Audit(audit) => lone(&audit.policy),
        Statement::Call(call) => package(alloc, call.procedure),
        Statement::Select(select) => table_object(alloc, user, &select.from.first.table),
        Statement::Count(count) => table_object(alloc, user, &count.table.table),
        Statement::Insert(insert) => table_object(alloc, user, &insert.table),
        Statement::Update(update) => table_object(alloc, user, &update.table),
        Statement::Delete(delete) => table_object(alloc, user, &delete.table),
        Statement::CreateTable(create) => table_object(alloc, user, &create.table),
        Statement::DropTable { table } => table_object(alloc, user, table),
        Statement::Grant(grant) => granted_object(alloc, user, grant),
        Statement::Commit | Statement::Rollback => Ok(None),
    }
}

fn table_object(
    alloc: Global,
    user: &Name,
    table: &TableReference,
) -> Result<Option<(Option<Name>, Name)>, Memory>
    ensures { IfOk result (λ object. object ≡ first_object user.now (table.now ∷ [])) }
{
    let TableName { owner, name } = table.resolved(alloc, user)?;
    Ok(Some((Some(owner), name)))
}

fn granted_object(
    alloc: Global,
    user: &Name,
    grant: &GrantStatement,
) -> Result<Option<(Option<Name>, Name)>, Memory>
    ensures { IfOk result (λ object. object ≡ first_object user.now (grant_tables grant.now)) }
{
    match grant {
        GrantStatement::GrantObject { table, .. } | GrantStatement::RevokeObject { table, .. } => {
            table_object(alloc, user, table)
        }
        GrantStatement::Grant { .. } | GrantStatement::Revoke { .. } => Ok(None),
    }
}

// An object without an owner.
fn lone(name: &Name) -> Result<Option<(Option<Name>, Name)>, Memory>
    ensures { IfOk result (λ object. object ≡ Some (None, name.now)) }
{
    Ok(Some((None, name.clone()?)))
}

#[tactic(auto, using(crate::proofs::Packages::package_long))]
fn package(alloc: Global, procedure: Procedure) -> Result<Option<(Option<Name>, Name)>, Memory>
    ensures { IfOk result (λ object. object ≡ Some (Some (codes "SYS"), package_of procedure)) }
{
    let owner = Name::from_str(alloc, "SYS")?;
    let name = Name::from_str(alloc, procedure.package())?;
    Ok(Some((Some(owner), name)))
}

/// The text of the statement as its record has it: as it was given, with a `*` in the place of a
/// password, whose token stands in the text.
pub fn recorded_text(alloc: Global, text: &Text, statement: &Statement) -> Result<Text, Memory>
    requires { IsPlaced text.now statement.now }
    ensures { IfOk result (λ recorded. recorded ≡ recorded_text text.now statement.now) }
{
    match statement {
        Statement::CreateUser { password, .. } | Statement::AlterUser { password, .. } => {
            without_password(alloc, text, password)
        }
        _ => Ok(text.clone()?),
    }
}

fn without_password(alloc: Global, text: &Text, password: &Password) -> Result<Text, Memory>
    requires { IsPasswordIn text.now password.now }
    ensures { IfOk result (λ recorded. recorded ≡ without_password text.now password.now) }
{
    let (before, _) = text.as_bytes().split_at(password.from as usize);
    let (_, behind) = text.as_bytes().split_at(password.to as usize);
    let mut recorded = text_of(alloc, before)?.into_string()?;
    recorded.push_str("*")?;
    recorded.push_str(text_of(alloc, behind)?.as_str())?;
    Ok(Text::from_string(recorded))
}

fn text_of(alloc: Global, bytes: &[u8]) -> Result<Text, Memory>
    requires { IsUtf8 bytes.now }
    ensures { IfOk result (λ text. text ≡ bytes.now) }
{
    match Text::make(alloc, bytes)? {
        Some(text) => Ok(text),
        None => unreachable!(),
    }
}
