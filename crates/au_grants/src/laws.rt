//! Laws of grants.
ghost use Rattle.std.specs.Prelude.{◌≡◌, ◌≤◌, ◌+◌, ◌∷◌, [], length, map};
ghost use Rattle.std.specs.List.{filter};
ghost use Rattle.au_grants.specs.declared.change.GrantChange.{GrantChange};
ghost use Rattle.au_grants.specs.declared.grants.Grants.{Grants};
ghost use Rattle.au_grants.specs.Changing.{Closes, IsDrop, IsGrant, applied, applied_all, is_new, object_grant, role_grant, system_grant};
ghost use Rattle.au_grants.specs.Order.{AreInOrder};
ghost use Rattle.au_grants.specs.Rights.{HasNoCircle, grant_count};

/// No drop closes a circle of roles. It does nothing, and states the law for its callers; that no
/// statement GRANT or REVOKE closes one is a clause of `decide`, which stands on this crate.
pub fn drops_close_no_circle()
    ensures { (grants : Grants) (change : GrantChange) → IsDrop change → HasNoCircle grants.role → HasNoCircle (applied change grants).role }
{}

/// A change that closes no circle of roles leaves none, and one that closes a circle leaves it: a
/// grant of a role closes one exactly where the role is the grantee or holds it. It does nothing,
/// and states the law for its callers.
pub fn changes_keep_no_circle()
    ensures kept { (grants : Grants) (change : GrantChange) → ¬ Closes grants.role change → HasNoCircle grants.role → HasNoCircle (applied change grants).role }
    ensures closed { (grants : Grants) (change : GrantChange) → Closes grants.role change → ¬ HasNoCircle (applied change grants).role }
{}

/// A change that grants something adds one grant at most, and any other adds none; what is there
/// isn't added. It does nothing, and states the law for its callers.
pub fn changes_add_one_grant_at_most()
    ensures grants { (grants : Grants) (change : GrantChange) → IsGrant change → grant_count (applied change grants) ≤ grant_count grants + 1 }
    ensures others { (grants : Grants) (change : GrantChange) → ¬ IsGrant change → grant_count (applied change grants) ≤ grant_count grants }
    ensures new { (grants : Grants) (change : GrantChange) → grant_count (applied change grants) ≤ grant_count grants + length (filter (is_new grants) (change ∷ [])) }
{}

/// Grants that stand in byte order of their fields stand so after any change. It does nothing, and
/// states the law for its callers.
pub fn changes_keep_order()
    ensures { (grants : Grants) (change : GrantChange) → AreInOrder grants → AreInOrder (applied change grants) }
{}

/// Grants that stand in order are what they make when they are granted in turn, the first first,
/// where there are none of their kind. It does nothing, and states the law for its callers.
pub fn grants_in_order_come_back()
    ensures system { (grants : Grants) → AreInOrder grants → applied_all (map system_grant grants.system) (record grants { system = [] }) ≡ grants }
    ensures role { (grants : Grants) → AreInOrder grants → applied_all (map role_grant grants.role) (record grants { role = [] }) ≡ grants }
    ensures object { (grants : Grants) → AreInOrder grants → applied_all (map object_grant grants.object) (record grants { object = [] }) ≡ grants }
{}
