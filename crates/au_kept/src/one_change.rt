//! One change of the catalogue, or of grants.
ghost use Rattle.std.specs.Prelude.{◌≡◌, ◌++◌, ◌∷◌, ◌<◌, ◌^◌, ℕ, [], IfOk, OnOk, List as Sequence, false, length, map, option_to_list};
ghost use Rattle.au_catalog.specs.declared.catalog.Catalog.{Catalog as AnyCatalog};
ghost use Rattle.au_catalog.specs.Settling.{catalog_after, condition_texts};
ghost use Rattle.au_catalog.specs.Staging.{IsOrdered};
ghost use Rattle.au_entries.specs.Changing.{grant_changes, grants_after};
ghost use Rattle.au_grants.specs.Changing.{applied};
ghost use Rattle.au_replay.specs.Reading.{HasShortText, conditions};
ghost use Rattle.sql_ast.specs.declared.expression.Expr.{Expr as Tree};

use au_base::{Memory, Text};
use au_catalog::Catalog;
use au_entries::Change;
use au_grants::{GrantChange, GrantDraft, Grants};
use sql_ast::Expr;
use sql_parse::condition;
use std::alloc::Global;
use std::{mem, slice};

/// Makes the change in the catalogue, where it is one of it. Conditions are read again.
pub(crate) fn change_catalog(
    alloc: Global,
    catalog: &mut Catalog,
    change: &Change,
) -> Result<(), Memory>
    requires order { IsOrdered catalog.old }
    requires short { HasShortText change.now }
    ensures { OnOk result (catalog.new ≡ catalog_after conditions.tree change.now catalog.old) }
{
    if !is_of_catalog(change) {
        return Ok(());
    }
    let trees = trees_in(alloc, change)?;
    let staged = catalog.stage(alloc, slice::from_ref(change), trees)?;
    catalog.settle(staged);
    Ok(())
}

// Whether the change is one of the catalogue. No other makes anything of it.
fn is_of_catalog(change: &Change) -> bool
    ensures { result ≡ false → (tree : Sequence ℕ → Tree) (catalog : AnyCatalog) → catalog_after tree change.now catalog ≡ catalog }
{
    match change {
        Change::SysGrant(..) => false,
        Change::SysRevoke(..) => false,
        Change::RoleGrant(..) => false,
        Change::RoleRevoke(..) => false,
        Change::ObjGrant(..) => false,
        Change::ObjRevoke(..) => false,
        Change::Put(..) => false,
        Change::Gone(..) => false,
        Change::Start(_) => false,
        _ => true,
    }
}

// The trees of the change's conditions, one at most.
fn trees_in(alloc: Global, change: &Change) -> Result<Vec<Expr>, Memory>
    requires short { HasShortText change.now }
    ensures { IfOk result (λ trees. map conditions.tree (condition_texts (change.now ∷ [])) ≡ trees.items) }
{
    match change {
        Change::Policy { when, .. } => match when {
            Some((_, text)) => only_tree(alloc, text),
            None => Ok(Vec::new(alloc)),
        },
        Change::Fga { condition, .. } => match condition {
            Some(text) => only_tree(alloc, text),
            None => Ok(Vec::new(alloc)),
        },
        _ => Ok(Vec::new(alloc)),
    }
}

fn only_tree(alloc: Global, text: &Text) -> Result<Vec<Expr>, Memory>
    requires short { length text.now < 2 ^ 32 }
    ensures { IfOk result (λ trees. trees.items ≡ conditions.tree text.now ∷ []) }
{
    let tree = tree_of(alloc, text)?;
    let mut trees = Vec::new(alloc);
    trees.push(tree)?;
    Ok(trees)
}

// The tree that the text is read as, NULL where it isn't a condition.
fn tree_of(alloc: Global, text: &Text) -> Result<Expr, Memory>
    requires short { length text.now < 2 ^ 32 }
    ensures { IfOk result (λ tree. tree ≡ conditions.tree text.now) }
{
    match condition(alloc, text.as_bytes())? {
        Some(tree) => Ok(tree),
        None => Ok(Expr::Null),
    }
}

/// Makes the change in the grants, where it is one of them.
pub(crate) fn change_grants(
    alloc: Global,
    grants: &mut GrantDraft,
    change: &Change,
) -> Result<(), Memory>
    ensures { OnOk result (grants.new ≡ grants_after change.now grants.old) }
{
    match grant_change(change)? {
        Some(made) => make_in_grants(alloc, grants, &made),
        None => Ok(()),
    }
}

fn make_in_grants(
    alloc: Global,
    grants: &mut GrantDraft,
    change: &GrantChange,
) -> Result<(), Memory>
    ensures { OnOk result (grants.new ≡ applied change.now grants.old) }
{
    let before = mem::replace(grants, GrantDraft::of(Grants::new(alloc)));
    *grants = before.after(slice::from_ref(change))?;
    Ok(())
}

// What the change is for the grants, where it is something for them.
fn grant_change(change: &Change) -> Result<Option<GrantChange>, Memory>
    ensures { IfOk result (λ made. grant_changes change.now ≡ option_to_list made) }
{
    Ok(match change {
        Change::UserGone(name) => Some(GrantChange::UserGone(name.clone()?)),
        Change::RoleGone(name) => Some(GrantChange::RoleGone(name.clone()?)),
        Change::SysGrant(name, right, admin) => {
            Some(GrantChange::SystemGrant(name.clone()?, *right, *admin))
        }
        Change::SysRevoke(name, right) => Some(GrantChange::SystemRevoke(name.clone()?, *right)),
        Change::RoleGrant(name, role, admin) => Some(GrantChange::RoleGrant(
            name.clone()?,
            role.clone()?,
            *admin,
        )),
        Change::RoleRevoke(name, role) => {
            Some(GrantChange::RoleRevoke(name.clone()?, role.clone()?))
        }
        Change::ObjGrant(name, table, action) => Some(GrantChange::ObjectGrant(
            name.clone()?,
            table.clone()?,
            *action,
        )),
        Change::ObjRevoke(name, table, action) => Some(GrantChange::ObjectRevoke(
            name.clone()?,
            table.clone()?,
            *action,
        )),
        Change::TableGone(table) => Some(GrantChange::TableGone(table.clone()?)),
        _ => None,
    })
}
