//! Grants while a statement is decided.
ghost use Rattle.std.specs.Prelude.{◌≡◌, ◌+◌, ◌<◌, ◌^◌, ◌↔◌, ◌∷◌, [], IfOk, IsTrue, OnOk, length, vec_capacity, vec_len};
ghost use Rattle.std.specs.List.{list_any};
ghost use Rattle.au_grants.specs.declared.change.GrantChange.{GrantChange};
ghost use Rattle.au_grants.specs.Changing.{applied, applied_all, role_to};
ghost use Rattle.au_grants.specs.Holding.{grants_object, grants_privilege, grants_role};
ghost use Rattle.au_grants.specs.Order.{role_before};
ghost use Rattle.au_grants.specs.Rights.{IsHolder};
ghost use Rattle.au_grants.specs.Holding.{grants_privilege_as, grants_role_as};
ghost use Rattle.au_grants.specs.descent.Growing.{AreGrowing, AreReady, HasGrowth, IsRoomy, grown, merged};

use crate::change::GrantChange;
use crate::circle::is_circle;
use crate::direct::is_grantee;
use crate::edit::Edit;
use crate::granting::{
    is_object_there, is_role_there, is_role_there_as, is_system_there, is_system_there_as,
    make_growing,
};
use crate::grants::Grants;
use crate::growing::{Entry, FRESH_ENTRIES, GrowingLists, join};
use crate::lists::GrantLists;
use crate::role_grant::RoleGrant;
use au_base::{Action, Memory, Name, Privilege, TableName};
use std::alloc::Global;
use std::marker::Model;

/// Grants while a statement is decided: there may be any number of them, and many new ones are put
/// to their places at once.
#[derive(Debug, Drop)]
pub struct Course {
    lists: GrowingLists,
}

impl Model for Course {
    ghost use Rattle.au_grants.specs.Rights.{Grants as AllGrants};
    ghost use Rattle.au_grants.specs.descent.Growing.{AreGrowing, grown};

    ghost Value = { AllGrants };

    ghost view = { λ c. grown c.lists };

    ghost invariant = { λ c. AreGrowing c.lists };
}

impl Course {
    /// What begins with these grants. It takes no memory.
    pub fn of(alloc: Global, grants: Grants) -> Course
        ensures { result ≡ grants }
    {
        let Grants {
            system,
            role,
            object,
        } = grants;
        let kept = GrantLists {
            system: system.into_vec(),
            role: role.into_vec(),
            object: object.into_vec(),
        };
        Course {
            lists: GrowingLists {
                kept,
                fresh: no_lists(alloc),
                moving: no_lists(alloc),
            },
        }
    }

    /// The grants after the changes, in their order.
    pub fn after(self, changes: &[GrantChange]) -> Result<Course, Memory>
        ensures { IfOk result (λ after. after ≡ applied_all changes.now self) }
    {
        let Course { lists } = self;
        Ok(Course {
            lists: grown_by_all(lists, changes)?,
        })
    }

    /// How many grants of all kinds there are.
    pub fn counts(&self) -> (usize, usize, usize)
        ensures { (result.0 ≡ length self.now.system) × (result.1 ≡ length self.now.role) × (result.2 ≡ length self.now.object) }
    {
        (
            self.lists.kept.system.len() + self.lists.fresh.system.len(),
            self.lists.kept.role.len() + self.lists.fresh.role.len(),
            self.lists.kept.object.len() + self.lists.fresh.object.len(),
        )
    }

    /// Whether the system privilege is granted to the grantee directly.
    pub fn has_privilege(&self, grantee: &Name, privilege: Privilege) -> bool
        ensures { result ≡ list_any (grants_privilege grantee.now privilege) self.now.system }
    {
        is_system_there(
            &self.lists.kept.system,
            &self.lists.fresh.system,
            grantee,
            privilege,
        )
    }

    /// The same, and with admin option where that is asked.
    pub fn has_privilege_as(&self, grantee: &Name, privilege: Privilege, admin: bool) -> bool
        ensures { result ≡ list_any (grants_privilege_as grantee.now privilege admin) self.now.system }
    {
        is_system_there_as(
            &self.lists.kept.system,
            &self.lists.fresh.system,
            grantee,
            privilege,
            admin,
        )
    }

    /// Whether the role is granted to the grantee directly.
    pub fn has_role(&self, grantee: &Name, role: &str) -> bool
        ensures { result ≡ list_any (grants_role grantee.now role.now) self.now.role }
    {
        is_role_there(&self.lists.kept.role, &self.lists.fresh.role, grantee, role)
    }

    /// The same, and with admin option where that is asked.
    pub fn has_role_as(&self, grantee: &Name, role: &str, admin: bool) -> bool
        ensures { result ≡ list_any (grants_role_as grantee.now role.now admin) self.now.role }
    {
        is_role_there_as(
            &self.lists.kept.role,
            &self.lists.fresh.role,
            grantee,
            role,
            admin,
        )
    }

    /// Whether the object privilege is granted to the grantee directly.
    pub fn has_object(&self, grantee: &Name, table: &TableName, action: Action) -> bool
        ensures { result ≡ list_any (grants_object grantee.now table.now action) self.now.object }
    {
        is_object_there(
            &self.lists.kept.object,
            &self.lists.fresh.object,
            grantee,
            table,
            action,
        )
    }

    // Whether some role is granted to the name directly.
    fn is_role_grantee(&self, name: &Name) -> bool
        ensures { result ≡ list_any (role_to name.now) self.now.role }
    {
        is_grantee_there(&self.lists.kept.role, &self.lists.fresh.role, name)
    }

    /// Whether a grant of the role to the grantee would close a circle. The grants are as they were.
    pub fn closes_circle(
        &mut self,
        alloc: Global,
        grantee: &Name,
        role: &Name,
    ) -> Result<bool, Memory>
        ensures closes { IfOk result (λ closes. IsTrue closes ↔ IsHolder self.old.role role.now grantee.now) }
        ensures same { self.new ≡ self.old }
    {
        if !self.is_role_grantee(role) {
            return Ok(is_same_name(grantee, role));
        }
        join_reserved(
            &mut self.lists.kept.role,
            &mut self.lists.fresh.role,
            &mut self.lists.moving.role,
        )?;
        is_circle(alloc, self.lists.kept.role.as_slice(), grantee, role)
    }
}

fn is_same_name(one: &Name, other: &Name) -> bool
    ensures { IsTrue result ↔ (one.now ≡ other.now) }
{
    *one == *other
}

fn no_lists(alloc: Global) -> GrantLists
    ensures { (result.system.items ≡ []) × (result.role.items ≡ []) × (result.object.items ≡ []) }
{
    GrantLists {
        system: Vec::new(alloc),
        role: Vec::new(alloc),
        object: Vec::new(alloc),
    }
}

// Whether some role is granted to the name directly, among the new grants or the others.
fn is_grantee_there(kept: &Vec<RoleGrant>, fresh: &Vec<RoleGrant>, name: &Name) -> bool
    requires { AreReady role_before fresh.now.items kept.now.items }
    ensures { result ≡ list_any (role_to name.now) (merged role_before fresh.now.items kept.now.items) }
{
    is_grantee(fresh.as_slice(), name) || is_grantee(kept.as_slice(), name)
}

// The new entries go to their places.
fn join_reserved(
    kept: &mut Vec<RoleGrant>,
    fresh: &mut Vec<RoleGrant>,
    moving: &mut Vec<RoleGrant>,
) -> Result<(), Memory>
    requires ready { AreReady role_before fresh.old.items kept.old.items }
    requires none_moving { moving.old.items ≡ [] }
    ensures ready { AreReady role_before fresh.new.items kept.new.items }
    ensures merged { merged role_before fresh.new.items kept.new.items ≡ merged role_before fresh.old.items kept.old.items }
    ensures none_moving { moving.new.items ≡ [] }
    ensures kept { OnOk result (kept.new.items ≡ merged role_before fresh.old.items kept.old.items) }
{
    grow(kept, fresh, moving)?;
    join(kept, fresh, moving);
    Ok(())
}

// The lists after the changes, in their order.
fn grown_by_all(lists: GrowingLists, changes: &[GrantChange]) -> Result<GrowingLists, Memory>
    requires { AreGrowing lists }
    ensures after { IfOk result (λ after. grown after ≡ applied_all changes.now (grown lists)) }
    ensures ready { IfOk result AreGrowing }
{
    let mut after = lists;
    for change in changes {
        after = grown_by(after, change)?;
    }
    Ok(after)
}

fn grown_by(lists: GrowingLists, change: &GrantChange) -> Result<GrowingLists, Memory>
    requires { AreGrowing lists }
    ensures after { IfOk result (λ after. grown after ≡ applied change.now (grown lists)) }
    ensures ready { IfOk result AreGrowing }
{
    let edit = Edit::of(*lists.kept.role.allocator(), change)?;
    let mut after = with_growth(lists)?;
    make_growing(&mut after, edit);
    Ok(after)
}

// The lists, with room for whatever one change adds.
fn with_growth(lists: GrowingLists) -> Result<GrowingLists, Memory>
    requires { AreGrowing lists }
    ensures same { IfOk result (λ roomy. grown roomy ≡ grown lists) }
    ensures ready { IfOk result AreGrowing }
    ensures room { IfOk result (λ roomy. (change : GrantChange) → HasGrowth (change ∷ []) roomy) }
{
    let mut roomy = lists;
    grow(
        &mut roomy.kept.system,
        &mut roomy.fresh.system,
        &mut roomy.moving.system,
    )?;
    grow(
        &mut roomy.kept.role,
        &mut roomy.fresh.role,
        &mut roomy.moving.role,
    )?;
    grow(
        &mut roomy.kept.object,
        &mut roomy.fresh.object,
        &mut roomy.moving.object,
    )?;
    Ok(roomy)
}

// Makes room for one entry more. The lists are as they were.
fn grow<T: Entry>(kept: &mut Vec<T>, fresh: &mut Vec<T>, moving: &mut Vec<T>) -> Result<(), Memory>
    requires bounded { vec_len kept.old + vec_len fresh.old + 1 < 2 ^ 64 }
    requires none_moving { moving.old.items ≡ [] }
    ensures kept { kept.new.items ≡ kept.old.items }
    ensures fresh { fresh.new.items ≡ fresh.old.items }
    ensures moving { moving.new.items ≡ [] }
    ensures room { OnOk result (IsRoomy (length kept.new.items + length fresh.new.items + 1) (vec_capacity kept.new) (vec_capacity moving.new) (vec_capacity fresh.new) (length fresh.new.items)) }
{
    if fresh.len() == fresh.capacity() {
        fresh.reserve(FRESH_ENTRIES)?;
    }
    kept.reserve(fresh.len() + 1)?;
    moving.reserve(kept.len() + fresh.len() + 1)?;
    Ok(())
}
