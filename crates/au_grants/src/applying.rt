//! Changes made in vectors of grants.
ghost use Rattle.std.specs.Prelude.{◌≡◌, ◌<◌, ◌≤◌, ◌∷◌, [], IfOk, IsTrue, OnOk, map, vec_capacity, vec_len};
ghost use Rattle.std.specs.List.{insert, list_any};
ghost use Rattle.au_grants.specs.Changing.{applied, applied_all, without, with_admin, with_grant, with_object, system_to, role_to, object_to, names_role, names_table};
ghost use Rattle.au_grants.specs.Holding.{grants_privilege, grants_role, grants_object};
ghost use Rattle.au_grants.specs.Order.{AreInOrder, is_in_order, object_before, role_before, system_before};
ghost use Rattle.au_grants.specs.descent.Editing.{HasRoom, KeepsCapacity, listed};

use crate::change::GrantChange;
use crate::direct::{
    has_object, has_privilege, has_role, is_object_grant, is_role_grant, is_system_grant,
};
use crate::edit::{BoxedChange, Edit};
use crate::growing::place;
use crate::lists::GrantLists;
use crate::object_grant::ObjectGrant;
use crate::places::{object_place, role_place, system_place};
use crate::role_grant::RoleGrant;
use crate::system_grant::SystemGrant;
use au_base::{Action, Memory, Name, Privilege, TableName, is_same_privilege, is_same_table};

/// The grants after the changes, in their order.
pub fn after_all(grants: GrantLists, changes: &[GrantChange]) -> Result<GrantLists, Memory>
    requires { AreInOrder (listed grants) }
    ensures after { IfOk result (λ after. listed after ≡ applied_all changes.now (listed grants)) }
    ensures order { IfOk result (λ after. AreInOrder (listed after)) }
{
    let mut after = grants;
    for change in changes {
        after = after_change(after, change)?;
    }
    Ok(after)
}

fn after_change(grants: GrantLists, change: &GrantChange) -> Result<GrantLists, Memory>
    requires { AreInOrder (listed grants) }
    ensures { IfOk result (λ after. listed after ≡ applied change.now (listed grants)) }
{
    let edit = Edit::of(*grants.role.allocator(), change)?;
    let mut after = with_room_for(grants, change)?;
    make(&mut after, edit);
    Ok(after)
}

// The grants, with room for one that the change adds.
fn with_room_for(grants: GrantLists, change: &GrantChange) -> Result<GrantLists, Memory>
    ensures same { IfOk result (λ roomy. listed roomy ≡ listed grants) }
    ensures room { IfOk result (HasRoom (change.now ∷ [])) }
{
    let mut roomy = grants;
    match change {
        GrantChange::SystemGrant(..) => roomy.system.reserve(1)?,
        GrantChange::RoleGrant(..) => roomy.role.reserve(1)?,
        GrantChange::ObjectGrant(..) => roomy.object.reserve(1)?,
        _ => {}
    }
    Ok(roomy)
}

/// Makes the changes in their order. There is room for the grants that they add, and the call
/// takes no memory.
pub fn make_all(lists: &mut GrantLists, changes: Vec<Edit>)
    requires order { AreInOrder (listed lists.old) }
    requires room { HasRoom changes.items lists.old }
    ensures after { listed lists.new ≡ applied_all changes.items (listed lists.old) }
    ensures order { AreInOrder (listed lists.new) }
{
    let mut rest = changes.into_iter();
    while let Some(change) = rest.next() {
        make(lists, change);
    }
}

/// Makes the change. There is room for a grant that it adds, and the call takes no memory.
pub fn make(lists: &mut GrantLists, edit: Edit)
    requires order { AreInOrder (listed lists.old) }
    requires room { HasRoom (edit ∷ []) lists.old }
    ensures after { listed lists.new ≡ applied edit (listed lists.old) }
    ensures capacity { KeepsCapacity lists.old lists.new }
{
    match edit.change {
        BoxedChange::UserGone(user) => drop_user(lists, &user),
        BoxedChange::RoleGone(role) => drop_role(lists, &role),
        BoxedChange::TableGone(table) => drop_on_table(&mut lists.object, &table),
        BoxedChange::SystemGrant(grant) => grant_privilege(&mut lists.system, grant),
        BoxedChange::SystemRevoke(grantee, privilege) => {
            drop_privilege(&mut lists.system, &grantee, privilege)
        }
        BoxedChange::RoleGrant(grant) => grant_role(&mut lists.role, grant),
        BoxedChange::RoleRevoke(grantee, role) => {
            drop_role_grant(&mut lists.role, &grantee, &role)
        }
        BoxedChange::ObjectGrant(grant) => grant_object(&mut lists.object, grant),
        BoxedChange::ObjectRevoke(grantee, table, action) => {
            drop_object_grant(&mut lists.object, &grantee, &table, action)
        }
    }
}

fn drop_user(lists: &mut GrantLists, user: &Name)
    ensures after { listed lists.new ≡ applied (GrantChange.UserGone user.now) (listed lists.old) }
    ensures capacity { KeepsCapacity lists.old lists.new }
{
    drop_system_to(&mut lists.system, user);
    drop_role_to(&mut lists.role, user);
    drop_object_to(&mut lists.object, user);
}

fn drop_role(lists: &mut GrantLists, role: &Name)
    ensures after { listed lists.new ≡ applied (GrantChange.RoleGone role.now) (listed lists.old) }
    ensures capacity { KeepsCapacity lists.old lists.new }
{
    drop_system_to(&mut lists.system, role);
    drop_role_named(&mut lists.role, role);
    drop_object_to(&mut lists.object, role);
}

fn drop_system_to(entries: &mut Vec<SystemGrant>, name: &Name)
    ensures items { entries.new.items ≡ without (system_to name.now) entries.old.items }
    ensures capacity { vec_capacity entries.new ≡ vec_capacity entries.old }
{
    entries.retain(|entry| *entry.grantee() != *name);
}

fn drop_role_to(entries: &mut Vec<RoleGrant>, name: &Name)
    ensures items { entries.new.items ≡ without (role_to name.now) entries.old.items }
    ensures capacity { vec_capacity entries.new ≡ vec_capacity entries.old }
{
    entries.retain(|entry| *entry.grantee() != *name);
}

fn drop_object_to(entries: &mut Vec<ObjectGrant>, name: &Name)
    ensures items { entries.new.items ≡ without (object_to name.now) entries.old.items }
    ensures capacity { vec_capacity entries.new ≡ vec_capacity entries.old }
{
    entries.retain(|entry| *entry.grantee() != *name);
}

fn drop_role_named(entries: &mut Vec<RoleGrant>, name: &Name)
    ensures items { entries.new.items ≡ without (names_role name.now) entries.old.items }
    ensures capacity { vec_capacity entries.new ≡ vec_capacity entries.old }
{
    entries.retain(|entry| !(*entry.grantee() == *name || *entry.role() == *name));
}

fn drop_on_table(entries: &mut Vec<ObjectGrant>, table: &TableName)
    ensures items { entries.new.items ≡ without (names_table table.now) entries.old.items }
    ensures capacity { vec_capacity entries.new ≡ vec_capacity entries.old }
{
    entries.retain(|entry| !is_same_table(entry.table(), table));
}

fn drop_privilege(entries: &mut Vec<SystemGrant>, grantee: &Name, privilege: Privilege)
    requires order { IsTrue (is_in_order system_before entries.old.items) }
    ensures items { entries.new.items ≡ without (grants_privilege grantee.now privilege) entries.old.items }
    ensures capacity { vec_capacity entries.new ≡ vec_capacity entries.old }
{
    let place = system_place(entries.as_slice(), grantee, privilege);
    if place < entries.len() && is_system_grant(&entries[place], grantee, privilege) {
        drop(entries.remove(place));
    }
}

fn drop_role_grant(entries: &mut Vec<RoleGrant>, grantee: &Name, name: &Name)
    requires order { IsTrue (is_in_order role_before entries.old.items) }
    ensures items { entries.new.items ≡ without (grants_role grantee.now name.now) entries.old.items }
    ensures capacity { vec_capacity entries.new ≡ vec_capacity entries.old }
{
    let role = name.as_str();
    let place = role_place(entries.as_slice(), grantee, role);
    if place < entries.len() && is_role_grant(&entries[place], grantee, role) {
        drop(entries.remove(place));
    }
}

fn drop_object_grant(
    entries: &mut Vec<ObjectGrant>,
    grantee: &Name,
    table: &TableName,
    action: Action,
)
    requires order { IsTrue (is_in_order object_before entries.old.items) }
    ensures items { entries.new.items ≡ without (grants_object grantee.now table.now action) entries.old.items }
    ensures capacity { vec_capacity entries.new ≡ vec_capacity entries.old }
{
    let place = object_place(entries.as_slice(), grantee, table, action);
    if place < entries.len() && is_object_grant(&entries[place], grantee, table, action) {
        drop(entries.remove(place));
    }
}

fn grant_privilege(entries: &mut Vec<SystemGrant>, grant: SystemGrant)
    requires order { IsTrue (is_in_order system_before entries.old.items) }
    requires room { vec_len entries.old < vec_capacity entries.old }
    ensures items { entries.new.items ≡ with_grant system_before (grants_privilege grant.0 grant.1) grant entries.old.items }
    ensures capacity { vec_capacity entries.new ≡ vec_capacity entries.old }
{
    if has_privilege(entries.as_slice(), grant.grantee(), grant.privilege()) {
        set_privilege_admin(entries, &grant);
    } else {
        place(entries, grant);
    }
}

/// Gives the grant that is there the admin option of this one.
pub fn set_privilege_admin(entries: &mut Vec<SystemGrant>, grant: &SystemGrant)
    requires order { IsTrue (is_in_order system_before entries.old.items) }
    ensures items { entries.new.items ≡ map (with_admin (grants_privilege grant.now.0 grant.now.1) grant.now.2) entries.old.items }
    ensures capacity { vec_capacity entries.new ≡ vec_capacity entries.old }
{
    let place = system_place(entries.as_slice(), grant.grantee(), grant.privilege());
    if place < entries.len() {
        set_admin_of_privilege(&mut entries[place], grant);
    }
}

fn set_admin_of_privilege(entry: &mut SystemGrant, grant: &SystemGrant)
    ensures { entry.new ≡ with_admin (grants_privilege grant.now.0 grant.now.1) grant.now.2 entry.old }
{
    if *entry.grantee() == *grant.grantee()
        && is_same_privilege(entry.privilege(), grant.privilege())
    {
        entry.set_admin(grant.has_admin());
    }
}

fn grant_role(entries: &mut Vec<RoleGrant>, grant: RoleGrant)
    requires order { IsTrue (is_in_order role_before entries.old.items) }
    requires room { vec_len entries.old < vec_capacity entries.old }
    ensures items { entries.new.items ≡ with_grant role_before (grants_role grant.0 grant.1) grant entries.old.items }
    ensures capacity { vec_capacity entries.new ≡ vec_capacity entries.old }
{
    if has_role(entries.as_slice(), grant.grantee(), grant.role().as_str()) {
        set_role_admin(entries, &grant);
    } else {
        place(entries, grant);
    }
}

/// Gives the grant that is there the admin option of this one.
pub fn set_role_admin(entries: &mut Vec<RoleGrant>, grant: &RoleGrant)
    requires order { IsTrue (is_in_order role_before entries.old.items) }
    ensures items { entries.new.items ≡ map (with_admin (grants_role grant.now.0 grant.now.1) grant.now.2) entries.old.items }
    ensures capacity { vec_capacity entries.new ≡ vec_capacity entries.old }
{
    let place = role_place(entries.as_slice(), grant.grantee(), grant.role().as_str());
    if place < entries.len() {
        set_admin_of_role(&mut entries[place], grant);
    }
}

fn set_admin_of_role(entry: &mut RoleGrant, grant: &RoleGrant)
    ensures { entry.new ≡ with_admin (grants_role grant.now.0 grant.now.1) grant.now.2 entry.old }
{
    if *entry.grantee() == *grant.grantee() && *entry.role() == *grant.role() {
        entry.set_admin(grant.has_admin());
    }
}

fn grant_object(entries: &mut Vec<ObjectGrant>, grant: ObjectGrant)
    requires order { IsTrue (is_in_order object_before entries.old.items) }
    requires room { vec_len entries.old < vec_capacity entries.old }
    ensures items { entries.new.items ≡ with_object grant entries.old.items }
    ensures capacity { vec_capacity entries.new ≡ vec_capacity entries.old }
{
    if !has_object(
        entries.as_slice(),
        grant.grantee(),
        grant.table(),
        grant.action(),
    ) {
        place(entries, grant);
    }
}

/// Inserts the entry at the place. There is room for it, and the call takes no memory.
pub fn insert_at<T: Drop>(entries: &mut Vec<T>, place: usize, entry: T)
    requires place { place ≤ vec_len entries.old }
    requires room { vec_len entries.old < vec_capacity entries.old }
    ensures items { entries.new.items ≡ insert entries.old.items place entry }
    ensures capacity { vec_capacity entries.new ≡ vec_capacity entries.old }
{
    let inserted = entries.insert(place, entry);
    drop(inserted);
}
