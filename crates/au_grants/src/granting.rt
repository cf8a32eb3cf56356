//! Changes made in lists of grants that grow.
ghost use Rattle.std.specs.Prelude.{◌≡◌, ◌+◌, ◌<◌, ◌∷◌, [], length, vec_capacity, vec_len};
ghost use Rattle.std.specs.List.{list_any};
ghost use Rattle.au_grants.specs.Changing.{applied, applied_all, with_grant, with_object};
ghost use Rattle.au_grants.specs.Holding.{grants_privilege, grants_role, grants_object};
ghost use Rattle.au_grants.specs.Order.{AreInOrder, object_before, role_before, system_before};
ghost use Rattle.au_grants.specs.Holding.{grants_privilege_as, grants_role_as};
ghost use Rattle.au_grants.specs.descent.Editing.{listed};
ghost use Rattle.au_grants.specs.descent.Growing.{AreGrowing, AreReady, HasGrowth, IsRoomy, KeepsGrowth, grown, merged};

use crate::applying::{make, set_privilege_admin, set_role_admin};
use crate::direct::{has_object, has_privilege, has_privilege_as, has_role, has_role_as};
use crate::edit::{BoxedChange, Edit};
use crate::growing::{GrowingLists, add, join};
use crate::object_grant::ObjectGrant;
use crate::role_grant::RoleGrant;
use crate::system_grant::SystemGrant;
use au_base::{Action, Name, Privilege, TableName};

/// Makes the changes in their order, and puts the new grants to their places. There is room for the
/// grants that they add, and the call takes no memory.
pub fn make_all_growing(lists: &mut GrowingLists, changes: Vec<Edit>)
    requires ready { AreGrowing lists.old }
    requires room { HasGrowth changes.items lists.old }
    ensures after { listed lists.new.kept ≡ applied_all changes.items (grown lists.old) }
    ensures order { AreInOrder (listed lists.new.kept) }
{
    let mut rest = changes.into_iter();
    while let Some(change) = rest.next() {
        make_growing(lists, change);
    }
    join_all(lists);
}

/// Makes the change. There is room for a grant that it adds, and the call takes no memory.
pub fn make_growing(lists: &mut GrowingLists, edit: Edit)
    requires ready { AreGrowing lists.old }
    requires room { HasGrowth (edit ∷ []) lists.old }
    ensures after { grown lists.new ≡ applied edit (grown lists.old) }
    ensures ready { AreGrowing lists.new }
    ensures room { KeepsGrowth lists.old lists.new }
{
    match edit.change {
        BoxedChange::SystemGrant(grant) => grant_system(
            &mut lists.kept.system,
            &mut lists.fresh.system,
            &mut lists.moving.system,
            grant,
        ),
        BoxedChange::RoleGrant(grant) => grant_role(
            &mut lists.kept.role,
            &mut lists.fresh.role,
            &mut lists.moving.role,
            grant,
        ),
        BoxedChange::ObjectGrant(grant) => grant_object(
            &mut lists.kept.object,
            &mut lists.fresh.object,
            &mut lists.moving.object,
            grant,
        ),
        change => make_on_joined(lists, Edit { change }),
    }
}

// Makes a change in the lists without new entries apart.
fn make_on_joined(lists: &mut GrowingLists, edit: Edit)
    requires ready { AreGrowing lists.old }
    requires room { HasGrowth (edit ∷ []) lists.old }
    ensures after { grown lists.new ≡ applied edit (grown lists.old) }
    ensures ready { AreGrowing lists.new }
    ensures room { KeepsGrowth lists.old lists.new }
{
    join_all(lists);
    make(&mut lists.kept, edit);
}

/// The new entries of each kind go to their places. It takes no memory.
pub fn join_all(lists: &mut GrowingLists)
    requires ready { AreGrowing lists.old }
    requires room { HasGrowth [] lists.old }
    ensures kept { listed lists.new.kept ≡ grown lists.old }
    ensures fresh { (lists.new.fresh.system.items ≡ []) × (lists.new.fresh.role.items ≡ []) × (lists.new.fresh.object.items ≡ []) }
    ensures ready { AreGrowing lists.new }
    ensures room { KeepsGrowth lists.old lists.new }
{
    join(
        &mut lists.kept.system,
        &mut lists.fresh.system,
        &mut lists.moving.system,
    );
    join(
        &mut lists.kept.role,
        &mut lists.fresh.role,
        &mut lists.moving.role,
    );
    join(
        &mut lists.kept.object,
        &mut lists.fresh.object,
        &mut lists.moving.object,
    );
}

fn grant_system(
    kept: &mut Vec<SystemGrant>,
    fresh: &mut Vec<SystemGrant>,
    moving: &mut Vec<SystemGrant>,
    grant: SystemGrant,
)
    requires ready { AreReady system_before fresh.old.items kept.old.items }
    requires none_moving { moving.old.items ≡ [] }
    requires room { IsRoomy (length (merged system_before fresh.old.items kept.old.items) + 1) (vec_capacity kept.old) (vec_capacity moving.old) (vec_capacity fresh.old) (length fresh.old.items) }
    ensures after { merged system_before fresh.new.items kept.new.items ≡ with_grant system_before (grants_privilege grant.0 grant.1) grant (merged system_before fresh.old.items kept.old.items) }
    ensures ready { AreReady system_before fresh.new.items kept.new.items }
    ensures none_moving { moving.new.items ≡ [] }
    ensures capacity { (vec_capacity kept.new ≡ vec_capacity kept.old) × (vec_capacity fresh.new ≡ vec_capacity fresh.old) × (vec_capacity moving.new ≡ vec_capacity moving.old) }
    ensures fresh_room { length fresh.new.items < vec_capacity fresh.new }
{
    if is_system_there(kept, fresh, grant.grantee(), grant.privilege()) {
        set_privilege_admin(kept, &grant);
        set_privilege_admin(fresh, &grant);
    } else {
        add(kept, fresh, moving, grant);
    }
}

/// Whether it is granted, among the new grants or the others.
pub fn is_system_there(
    kept: &Vec<SystemGrant>,
    fresh: &Vec<SystemGrant>,
    grantee: &Name,
    privilege: Privilege,
) -> bool
    requires { AreReady system_before fresh.now.items kept.now.items }
    ensures { result ≡ list_any (grants_privilege grantee.now privilege) (merged system_before fresh.now.items kept.now.items) }
{
    has_privilege(fresh.as_slice(), grantee, privilege)
        || has_privilege(kept.as_slice(), grantee, privilege)
}

/// The same, and with admin option where that is asked.
pub fn is_system_there_as(
    kept: &Vec<SystemGrant>,
    fresh: &Vec<SystemGrant>,
    grantee: &Name,
    privilege: Privilege,
    admin: bool,
) -> bool
    requires { AreReady system_before fresh.now.items kept.now.items }
    ensures { result ≡ list_any (grants_privilege_as grantee.now privilege admin) (merged system_before fresh.now.items kept.now.items) }
{
    has_privilege_as(fresh.as_slice(), grantee, privilege, admin)
        || has_privilege_as(kept.as_slice(), grantee, privilege, admin)
}

fn grant_role(
    kept: &mut Vec<RoleGrant>,
    fresh: &mut Vec<RoleGrant>,
    moving: &mut Vec<RoleGrant>,
    grant: RoleGrant,
)
    requires ready { AreReady role_before fresh.old.items kept.old.items }
    requires none_moving { moving.old.items ≡ [] }
    requires room { IsRoomy (length (merged role_before fresh.old.items kept.old.items) + 1) (vec_capacity kept.old) (vec_capacity moving.old) (vec_capacity fresh.old) (length fresh.old.items) }
    ensures after { merged role_before fresh.new.items kept.new.items ≡ with_grant role_before (grants_role grant.0 grant.1) grant (merged role_before fresh.old.items kept.old.items) }
    ensures ready { AreReady role_before fresh.new.items kept.new.items }
    ensures none_moving { moving.new.items ≡ [] }
    ensures capacity { (vec_capacity kept.new ≡ vec_capacity kept.old) × (vec_capacity fresh.new ≡ vec_capacity fresh.old) × (vec_capacity moving.new ≡ vec_capacity moving.old) }
    ensures fresh_room { length fresh.new.items < vec_capacity fresh.new }
{
    if is_role_there(kept, fresh, grant.grantee(), grant.role().as_str()) {
        set_role_admin(kept, &grant);
        set_role_admin(fresh, &grant);
    } else {
        add(kept, fresh, moving, grant);
    }
}

/// Whether it is granted, among the new grants or the others.
pub fn is_role_there(
    kept: &Vec<RoleGrant>,
    fresh: &Vec<RoleGrant>,
    grantee: &Name,
    role: &str,
) -> bool
    requires { AreReady role_before fresh.now.items kept.now.items }
    ensures { result ≡ list_any (grants_role grantee.now role.now) (merged role_before fresh.now.items kept.now.items) }
{
    has_role(fresh.as_slice(), grantee, role) || has_role(kept.as_slice(), grantee, role)
}

/// The same, and with admin option where that is asked.
pub fn is_role_there_as(
    kept: &Vec<RoleGrant>,
    fresh: &Vec<RoleGrant>,
    grantee: &Name,
    role: &str,
    admin: bool,
) -> bool
    requires { AreReady role_before fresh.now.items kept.now.items }
    ensures { result ≡ list_any (grants_role_as grantee.now role.now admin) (merged role_before fresh.now.items kept.now.items) }
{
    has_role_as(fresh.as_slice(), grantee, role, admin)
        || has_role_as(kept.as_slice(), grantee, role, admin)
}

fn grant_object(
    kept: &mut Vec<ObjectGrant>,
    fresh: &mut Vec<ObjectGrant>,
    moving: &mut Vec<ObjectGrant>,
    grant: ObjectGrant,
)
    requires ready { AreReady object_before fresh.old.items kept.old.items }
    requires none_moving { moving.old.items ≡ [] }
    requires room { IsRoomy (length (merged object_before fresh.old.items kept.old.items) + 1) (vec_capacity kept.old) (vec_capacity moving.old) (vec_capacity fresh.old) (length fresh.old.items) }
    ensures after { merged object_before fresh.new.items kept.new.items ≡ with_object grant (merged object_before fresh.old.items kept.old.items) }
    ensures ready { AreReady object_before fresh.new.items kept.new.items }
    ensures none_moving { moving.new.items ≡ [] }
    ensures capacity { (vec_capacity kept.new ≡ vec_capacity kept.old) × (vec_capacity fresh.new ≡ vec_capacity fresh.old) × (vec_capacity moving.new ≡ vec_capacity moving.old) }
    ensures fresh_room { length fresh.new.items < vec_capacity fresh.new }
{
    if !is_object_there(kept, fresh, grant.grantee(), grant.table(), grant.action()) {
        add(kept, fresh, moving, grant);
    }
}

/// Whether it is granted, among the new grants or the others.
pub fn is_object_there(
    kept: &Vec<ObjectGrant>,
    fresh: &Vec<ObjectGrant>,
    grantee: &Name,
    table: &TableName,
    action: Action,
) -> bool
    requires { AreReady object_before fresh.now.items kept.now.items }
    ensures { result ≡ list_any (grants_object grantee.now table.now action) (merged object_before fresh.now.items kept.now.items) }
{
    has_object(fresh.as_slice(), grantee, table, action)
        || has_object(kept.as_slice(), grantee, table, action)
}
