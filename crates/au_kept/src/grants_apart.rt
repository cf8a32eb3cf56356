//! Grants of which none changes whether another goes on.
ghost use Rattle.std.specs.Prelude.{◌≡◌, ◌↔◌, IsTrue};
ghost use Rattle.std.specs.List.{AllByRecursion, Contains, find};
ghost use Rattle.std.specs.Option.{option_copied};
ghost use Rattle.au_kept.specs.Quick.{IsGrant, IsOfOne, IsToOne, ShareName, is_to_role};

use crate::Keeping;
use au_base::Name;
use au_entries::Change;

/// Whether each change grants a privilege or a role.
pub(crate) fn are_grants(changes: &[Change]) -> bool
    ensures { IsTrue result ↔ AllByRecursion IsGrant changes.now }
{
    for change in changes {
        if !is_grant(change) {
            return false;
        }
    }
    true
}

fn is_grant(change: &Change) -> bool
    ensures { IsTrue result ↔ IsGrant change.now }
{
    match change {
        Change::SysGrant(..) => true,
        Change::RoleGrant(..) => true,
        Change::ObjGrant(..) => true,
        _ => false,
    }
}

impl Keeping {
    /// Whether the changes that grant a role to a role have one grantee, or grant one role: that of the
    /// first of them.
    pub(crate) fn share_name(&self, changes: &[Change]) -> bool
        ensures { IsTrue result ↔ ShareName self.now.kept changes.now }
    {
        match self.first_to_role(changes) {
            Some(first) => self.share_name_of(first, changes),
            None => true,
        }
    }

    // The same, where this is one of them.
    fn share_name_of(&self, first: &Change, changes: &[Change]) -> bool
        requires there { Contains changes.now first.now }
        requires to_role { IsTrue (is_to_role self.now.kept first.now) }
        ensures { IsTrue result ↔ ShareName self.now.kept changes.now }
    {
        match first {
            Change::RoleGrant(grantee, role, _) => {
                self.are_to_one(grantee, changes) || self.are_of_one(role, changes)
            }
            _ => false,
        }
    }

    fn first_to_role<'a>(&self, changes: &'a [Change]) -> Option<&'a Change>
        ensures { option_copied result ≡ find (is_to_role self.now.kept) changes.now }
    {
        changes.iter().find(|change| self.is_to_role(change))
    }

    fn is_to_role(&self, change: &Change) -> bool
        ensures { result ≡ is_to_role self.now.kept change.now }
    {
        match change {
            Change::RoleGrant(grantee, _, _) => self.has_role(grantee),
            _ => false,
        }
    }

    // Whether the changes that grant a role to a role have this grantee.
    fn are_to_one(&self, name: &Name, changes: &[Change]) -> bool
        ensures { IsTrue result ↔ AllByRecursion (IsToOne self.now.kept name.now) changes.now }
    {
        for change in changes {
            if !self.is_to_one(name, change) {
                return false;
            }
        }
        true
    }

    fn is_to_one(&self, name: &Name, change: &Change) -> bool
        ensures { IsTrue result ↔ IsToOne self.now.kept name.now change.now }
    {
        match change {
            Change::RoleGrant(grantee, _, _) => !self.has_role(grantee) || grantee == name,
            _ => true,
        }
    }

    // Whether they grant this role.
    fn are_of_one(&self, name: &Name, changes: &[Change]) -> bool
        ensures { IsTrue result ↔ AllByRecursion (IsOfOne self.now.kept name.now) changes.now }
    {
        for change in changes {
            if !self.is_of_one(name, change) {
                return false;
            }
        }
        true
    }

    fn is_of_one(&self, name: &Name, change: &Change) -> bool
        ensures { IsTrue result ↔ IsOfOne self.now.kept name.now change.now }
    {
        match change {
            Change::RoleGrant(grantee, role, _) => !self.has_role(grantee) || role == name,
            _ => true,
        }
    }
}
