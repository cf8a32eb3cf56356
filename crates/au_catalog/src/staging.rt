//! Changes as edits of the catalogue.
ghost use Rattle.std.specs.Prelude.{◌≡◌, ◌≤◌, ◌++◌, IfOk, OnOk, drop, get_or, length, option_to_list};
ghost use Rattle.std.specs.Vec.Iter.{into_iter_items};
ghost use Rattle.au_catalog.specs.Settling.{condition_texts, texts_in, when_texts};
ghost use Rattle.au_catalog.specs.Staging.{edit_of, edits_with, first_of};
ghost use Rattle.au_entries.specs.Changing.{read_as, with_tree};

use crate::edit::Edit;
use au_base::{Action, Column, List, Memory, Name, Privilege, TableName, Text};
use au_entries::{AuditPolicy, Change, Condition, Enabled, Evaluate, FgaName, FgaPolicy, Table};
use sql_ast::Expr;
use std::vec::IntoIter;

/// Adds the edits that the changes are. The trees, in their order, are those of their conditions.
pub fn push_edits(
    edits: &mut Vec<Edit>,
    changes: &[Change],
    trees: &mut IntoIter<Expr>,
) -> Result<(), Memory>
    requires trees { length (condition_texts changes.now) ≤ length (into_iter_items trees.old) }
    ensures { OnOk result (edits.new.items ≡ edits.old.items ++ edits_with (into_iter_items trees.old) changes.now) }
{
    edits.reserve(changes.len())?;
    for change in changes {
        push_edit(edits, change, trees)?;
    }
    Ok(())
}

// Adds the edit that the change is, where it is one.
fn push_edit(
    edits: &mut Vec<Edit>,
    change: &Change,
    trees: &mut IntoIter<Expr>,
) -> Result<(), Memory>
    requires trees { length (texts_in change.now) ≤ length (into_iter_items trees.old) }
    ensures edits { OnOk result (edits.new.items ≡ edits.old.items ++ option_to_list (edit_of (first_of (into_iter_items trees.old)) change.now)) }
    ensures rest { OnOk result (into_iter_items trees.new ≡ drop (length (texts_in change.now)) (into_iter_items trees.old)) }
{
    push_some(edits, edit_of(change, trees)?)
}

// Adds the value, where there is one.
fn push_some<T: Drop>(values: &mut Vec<T>, found: Option<T>) -> Result<(), Memory>
    ensures { OnOk result (values.new.items ≡ values.old.items ++ option_to_list found) }
{
    if let Some(value) = found {
        values.push(value)?;
    }
    Ok(())
}

// The edit that the change is, where it is one. The tree of its condition is the next one.
fn edit_of(change: &Change, trees: &mut IntoIter<Expr>) -> Result<Option<Edit>, Memory>
    requires trees { length (texts_in change.now) ≤ length (into_iter_items trees.old) }
    ensures edit { IfOk result (λ edit. edit ≡ edit_of (first_of (into_iter_items trees.old)) change.now) }
    ensures rest { OnOk result (into_iter_items trees.new ≡ drop (length (texts_in change.now)) (into_iter_items trees.old)) }
{
    match change {
        Change::User(name, verifier) => put_user(name, verifier),
        Change::UserGone(name) => drop_user(name),
        Change::Role(name) => put_role(name),
        Change::RoleGone(name) => drop_role(name),
        Change::Table(name, columns, key) => put_table(name, columns, key),
        Change::TableGone(name) => drop_table(name),
        Change::Policy {
            name,
            privileges,
            actions,
            roles,
            when,
        } => put_policy(name, privileges, actions, roles, when, trees),
        Change::PolicyGone(name) => drop_policy(name),
        Change::Enable(policy, enabled) => enable(policy, enabled),
        Change::Fga {
            table,
            policy,
            condition,
            columns,
            all,
            types,
            enabled,
        } => {
            let name = fga_name(table, policy)?;
            put_fga(name, condition, columns, *all, *types, *enabled, trees)
        }
        Change::FgaGone(table, policy) => drop_fga(table, policy),
        Change::Archive(stamp) => Ok(Some(Edit::SetArchive(*stamp))),
        _ => Ok(None),
    }
}

fn put_user(name: &Name, verifier: &[u8; 32]) -> Result<Option<Edit>, Memory>
    ensures { IfOk result (λ edit. edit ≡ Some (Edit.PutUser name.now verifier.now)) }
{
    Ok(Some(Edit::PutUser(name.clone()?, *verifier)))
}

fn drop_user(name: &Name) -> Result<Option<Edit>, Memory>
    ensures { IfOk result (λ edit. edit ≡ Some (Edit.DropUser name.now)) }
{
    Ok(Some(Edit::DropUser(name.clone()?)))
}

fn put_role(name: &Name) -> Result<Option<Edit>, Memory>
    ensures { IfOk result (λ edit. edit ≡ Some (Edit.PutRole name.now)) }
{
    Ok(Some(Edit::PutRole(name.clone()?)))
}

fn drop_role(name: &Name) -> Result<Option<Edit>, Memory>
    ensures { IfOk result (λ edit. edit ≡ Some (Edit.DropRole name.now)) }
{
    Ok(Some(Edit::DropRole(name.clone()?)))
}

fn put_table(
    name: &TableName,
    columns: &List<Column>,
    key: &List<u32>,
) -> Result<Option<Edit>, Memory>
    ensures { IfOk result (λ edit. edit ≡ Some (Edit.PutTable (record { name = name.now; columns = columns.now; key = key.now }))) }
{
    Ok(Some(Edit::PutTable(Table {
        name: name.clone()?,
        columns: columns.clone()?,
        key: key.clone()?,
    })))
}

fn drop_table(name: &TableName) -> Result<Option<Edit>, Memory>
    ensures { IfOk result (λ edit. edit ≡ Some (Edit.DropTable name.now)) }
{
    Ok(Some(Edit::DropTable(name.clone()?)))
}

fn put_policy(
    name: &Name,
    privileges: &List<Privilege>,
    actions: &List<(Action, Option<TableName>)>,
    roles: &List<Name>,
    when: &Option<(Evaluate, Text)>,
    trees: &mut IntoIter<Expr>,
) -> Result<Option<Edit>, Memory>
    requires trees { length (when_texts when.now) ≤ length (into_iter_items trees.old) }
    ensures edit { IfOk result (λ edit. edit ≡ Some (Edit.PutPolicy (record { name = name.now; privileges = privileges.now; actions = actions.now; roles = roles.now; when = with_tree (first_of (into_iter_items trees.old)) when.now }))) }
    ensures rest { OnOk result (into_iter_items trees.new ≡ drop (length (when_texts when.now)) (into_iter_items trees.old)) }
{
    Ok(Some(Edit::PutPolicy(AuditPolicy {
        name: name.clone()?,
        privileges: privileges.clone()?,
        actions: actions.clone()?,
        roles: roles.clone()?,
        when: with_tree(when, trees)?,
    })))
}

fn drop_policy(name: &Name) -> Result<Option<Edit>, Memory>
    ensures { IfOk result (λ edit. edit ≡ Some (Edit.DropPolicy name.now)) }
{
    Ok(Some(Edit::DropPolicy(name.clone()?)))
}

fn enable(policy: &Name, enabled: &Enabled) -> Result<Option<Edit>, Memory>
    ensures { IfOk result (λ edit. edit ≡ Some (Edit.Enable policy.now enabled.now)) }
{
    Ok(Some(Edit::Enable(policy.clone()?, enabled.clone()?)))
}

fn fga_name(table: &TableName, policy: &Name) -> Result<FgaName, Memory>
    ensures { IfOk result (λ name. name ≡ record { table = table.now; policy = policy.now }) }
{
    Ok(FgaName {
        table: table.clone()?,
        policy: policy.clone()?,
    })
}

fn put_fga(
    name: FgaName,
    condition: &Option<Text>,
    columns: &List<Name>,
    all: bool,
    types: u8,
    enabled: bool,
    trees: &mut IntoIter<Expr>,
) -> Result<Option<Edit>, Memory>
    requires trees { length (option_to_list condition.now) ≤ length (into_iter_items trees.old) }
    ensures edit { IfOk result (λ edit. edit ≡ Some (Edit.PutFga (record { name = name; condition = read_as (first_of (into_iter_items trees.old)) condition.now; columns = columns.now; all = all; types = types; enabled = enabled }))) }
    ensures rest { OnOk result (into_iter_items trees.new ≡ drop (length (option_to_list condition.now)) (into_iter_items trees.old)) }
{
    let columns = columns.clone()?;
    Ok(Some(Edit::PutFga(FgaPolicy {
        name,
        condition: read_as(condition, trees)?,
        columns,
        all,
        types,
        enabled,
    })))
}

fn drop_fga(table: &TableName, policy: &Name) -> Result<Option<Edit>, Memory>
    ensures { IfOk result (λ edit. edit ≡ Some (Edit.DropFga table.now policy.now)) }
{
    Ok(Some(Edit::DropFga(table.clone()?, policy.clone()?)))
}

// An audit policy's condition with the next tree, where it has one.
fn with_tree(
    when: &Option<(Evaluate, Text)>,
    trees: &mut IntoIter<Expr>,
) -> Result<Option<(Evaluate, Condition)>, Memory>
    requires trees { length (when_texts when.now) ≤ length (into_iter_items trees.old) }
    ensures when { IfOk result (λ read. read ≡ with_tree (first_of (into_iter_items trees.old)) when.now) }
    ensures rest { OnOk result (into_iter_items trees.new ≡ drop (length (when_texts when.now)) (into_iter_items trees.old)) }
{
    match when {
        None => Ok(None),
        Some((evaluate, text)) => Ok(Some((*evaluate, condition(text, trees)?))),
    }
}

// A fine-grained policy's condition with the next tree, where it has one.
fn read_as(text: &Option<Text>, trees: &mut IntoIter<Expr>) -> Result<Option<Condition>, Memory>
    requires trees { length (option_to_list text.now) ≤ length (into_iter_items trees.old) }
    ensures condition { IfOk result (λ read. read ≡ read_as (first_of (into_iter_items trees.old)) text.now) }
    ensures rest { OnOk result (into_iter_items trees.new ≡ drop (length (option_to_list text.now)) (into_iter_items trees.old)) }
{
    match text {
        None => Ok(None),
        Some(text) => Ok(Some(condition(text, trees)?)),
    }
}

// The condition with this text and the next tree.
fn condition(text: &Text, trees: &mut IntoIter<Expr>) -> Result<Condition, Memory>
    requires trees { 1 ≤ length (into_iter_items trees.old) }
    ensures condition { IfOk result (λ read. read ≡ record { text = text.now; tree = first_of (into_iter_items trees.old) text.now }) }
    ensures rest { OnOk result (into_iter_items trees.new ≡ drop 1 (into_iter_items trees.old)) }
{
    let text = text.clone()?;
    let tree = next_tree(trees);
    Ok(Condition { text, tree })
}

fn next_tree(trees: &mut IntoIter<Expr>) -> Expr
    requires trees { 1 ≤ length (into_iter_items trees.old) }
    ensures tree { result ≡ get_or (into_iter_items trees.old) 0 Expr.Null }
    ensures rest { into_iter_items trees.new ≡ drop 1 (into_iter_items trees.old) }
{
    match trees.next() {
        Some(tree) => tree,
        None => unreachable!(),
    }
}
