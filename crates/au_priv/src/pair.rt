//! Pairs of a right and a grantee.
ghost use Rattle.std.specs.Prelude.{◌≡◌, IfOk, map};
ghost use Rattle.au_priv.specs.Pairs.{right_pair, object_pair, object_change, right_change, actions_of};

use au_base::{Action, List, Memory, Name, ObjectRight, Right, TableName};
use au_grants::GrantChange;
use std::alloc::Global;

/// Whether rights are granted or revoked.
#[derive(Clone, Copy, Debug, PartialEq, Eq)]
pub enum Way {
    /// They are granted; system privileges and roles with the admin option where it is true.
    Grant(bool),
    /// They are revoked.
    Revoke,
}

/// The change for a right and a grantee.
pub fn changes_of_right(
    alloc: Global,
    way: Way,
    right: &Right,
    grantee: &Name,
) -> Result<List<GrantChange>, Memory>
    ensures { IfOk result (λ pair. pair ≡ right_pair way right.now grantee.now) }
{
    let mut pair = List::new(alloc);
    pair.push(change_of_right(way, right, grantee)?)?;
    Ok(pair)
}

fn change_of_right(way: Way, right: &Right, grantee: &Name) -> Result<GrantChange, Memory>
    ensures { IfOk result (λ change. change ≡ right_change way right.now grantee.now) }
{
    match (way, right) {
        (Way::Grant(admin), Right::Privilege(privilege)) => {
            Ok(GrantChange::SystemGrant(grantee.clone()?, *privilege, admin))
        }
        (Way::Grant(admin), Right::Role(role)) => {
            Ok(GrantChange::RoleGrant(grantee.clone()?, role.clone()?, admin))
        }
        (Way::Revoke, Right::Privilege(privilege)) => {
            Ok(GrantChange::SystemRevoke(grantee.clone()?, *privilege))
        }
        (Way::Revoke, Right::Role(role)) => {
            Ok(GrantChange::RoleRevoke(grantee.clone()?, role.clone()?))
        }
    }
}

/// The changes for an object right and a grantee, in the order of their actions' numbers.
pub fn changes_of_object_right(
    alloc: Global,
    way: Way,
    table: &TableName,
    right: ObjectRight,
    grantee: &Name,
) -> Result<List<GrantChange>, Memory>
    ensures { IfOk result (λ pair. pair ≡ object_pair way table.now right grantee.now) }
{
    let mut pair = List::new(alloc);
    for action in actions(right) {
        pair.push(change_of_action(way, table, *action, grantee)?)?;
    }
    Ok(pair)
}

fn actions(right: ObjectRight) -> &'static [Action]
    ensures { result.now ≡ actions_of right }
{
    match right {
        ObjectRight::Select => &[Action::Select],
        ObjectRight::Insert => &[Action::Insert],
        ObjectRight::Update => &[Action::Update],
        ObjectRight::Delete => &[Action::Delete],
        ObjectRight::All => &[
            Action::Select,
            Action::Insert,
            Action::Update,
            Action::Delete,
        ],
    }
}

fn change_of_action(
    way: Way,
    table: &TableName,
    action: Action,
    grantee: &Name,
) -> Result<GrantChange, Memory>
    ensures { IfOk result (λ change. change ≡ object_change way table.now grantee.now action) }
{
    match way {
        Way::Grant(_) => Ok(GrantChange::ObjectGrant(grantee.clone()?, table.clone()?, action)),
        Way::Revoke => Ok(GrantChange::ObjectRevoke(grantee.clone()?, table.clone()?, action)),
    }
}
