//! What a user may do with a table.
ghost use Rattle.std.specs.Prelude.{◌≡◌, ◌≢◌, ◌↔◌, IsTrue, None, Some};
ghost use Rattle.au_priv.specs.declared.allowed.Allowed.{Allowed};
ghost use Rattle.au_priv.specs.Allowing.{AllowedIs, AllowedOnTable, AllowedOnTrail, IsRefusal, ReadsTrail, any_table_privilege, dual_answer};

use crate::allowed::Allowed;
use au_base::built_in::{AUDIT_ADMIN, AUDIT_VIEWER};
use au_base::{Action, Code, Name, Privilege, TableName};
use au_grants::{Grants, Sought};

/// What the user may do with the table, and by what.
pub fn allowed_on(grants: &Grants, user: &Name, table: &TableName, action: Action) -> Allowed
    ensures { (answer : Allowed) → (result ≡ answer) ↔ AllowedIs grants.now user.now table.now action answer }
{
    if table.is_dual() {
        return on_dual(action);
    }
    if table.is_trail() {
        return on_trail(grants, user, action);
    }
    on_table(grants, user, table, action)
}

fn on_dual(action: Action) -> Allowed
    ensures { result ≡ dual_answer action }
{
    match action {
        Action::Select => Allowed::Object,
        _ => Allowed::Refused(Code::PRIVILEGE_MISSING),
    }
}

fn on_trail(grants: &Grants, user: &Name, action: Action) -> Allowed
    ensures { AllowedOnTrail grants.now user.now action result }
{
    match action {
        Action::Select if reads_trail(grants, user) => Allowed::Object,
        Action::Select => Allowed::Refused(Code::NO_SUCH_TABLE),
        _ => Allowed::Refused(Code::TRAIL_READ_ONLY),
    }
}

fn reads_trail(grants: &Grants, user: &Name) -> bool
    ensures { IsTrue result ↔ ReadsTrail grants.now user.now }
{
    let readers = [Sought::Role(AUDIT_ADMIN), Sought::Role(AUDIT_VIEWER)];
    grants.first_right(user, &readers).is_some()
}

fn on_table(grants: &Grants, user: &Name, table: &TableName, action: Action) -> Allowed
    ensures { AllowedOnTable grants.now user.now table.now action result }
{
    if *user == table.owner {
        return Allowed::Owner;
    }
    match any_table(action) {
        Some(privilege) => by_right(grants, user, table, action, privilege),
        None => by_object_privilege(grants, user, table, action),
    }
}

// What another user than the owner may do, where a system privilege allows the action on any table.
fn by_right(
    grants: &Grants,
    user: &Name,
    table: &TableName,
    action: Action,
    privilege: Privilege,
) -> Allowed
    requires other { user.now ≢ table.now.owner }
    requires any { any_table_privilege action ≡ Some privilege }
    ensures { AllowedOnTable grants.now user.now table.now action result }
{
    let rights = [
        Sought::Object(&*table, action),
        Sought::Privilege(privilege),
        Sought::SomeObject(&*table),
        Sought::AnyTable,
    ];
    match grants.first_right(user, &rights) {
        Some(place) => {
            if place == 0 {
                return Allowed::Object;
            }
            if place == 1 {
                return Allowed::System(privilege);
            }
            Allowed::Refused(Code::PRIVILEGE_MISSING)
        }
        None => Allowed::Refused(Code::NO_SUCH_TABLE),
    }
}

// What another user than the owner may do, where no system privilege allows the action.
fn by_object_privilege(grants: &Grants, user: &Name, table: &TableName, action: Action) -> Allowed
    requires other { user.now ≢ table.now.owner }
    requires none { any_table_privilege action ≡ None }
    ensures { AllowedOnTable grants.now user.now table.now action result }
{
    let rights = [
        Sought::Object(&*table, action),
        Sought::SomeObject(&*table),
        Sought::AnyTable,
    ];
    match grants.first_right(user, &rights) {
        Some(0) => Allowed::Object,
        Some(_) => Allowed::Refused(Code::PRIVILEGE_MISSING),
        None => Allowed::Refused(Code::NO_SUCH_TABLE),
    }
}

fn any_table(action: Action) -> Option<Privilege>
    ensures { result ≡ any_table_privilege action }
{
    match action {
        Action::Select => Some(Privilege::SelectAnyTable),
        Action::Insert => Some(Privilege::InsertAnyTable),
        Action::Update => Some(Privilege::UpdateAnyTable),
        Action::Delete => Some(Privilege::DeleteAnyTable),
        _ => None,
    }
}

/// The code for a user who lacks a right on a table that is there: a privilege is missing for who
/// has some object privilege on it or some ANY TABLE privilege, else there is no such table.
pub fn refusal(grants: &Grants, user: &Name, table: &TableName) -> Code
    ensures { IsRefusal grants.now user.now table.now result }
{
    let rights = [Sought::SomeObject(&*table), Sought::AnyTable];
    match grants.first_right(user, &rights) {
        Some(_) => Code::PRIVILEGE_MISSING,
        None => Code::NO_SUCH_TABLE,
    }
}
