//! Grants of roles.
ghost use Rattle.std.specs.Prelude.{◌≡◌, IfOk};

use au_base::{Boxed, Memory, Name};
use std::alloc::{AllocError, Global};
use std::marker::Model;

/// A grant of a role: the grantee, the role, the admin option. The names stand in a box, so that a
/// place in a list of many is made by moving little.
#[derive(Debug, Drop, PartialEq, Eq)]
pub struct RoleGrant {
    names: Boxed<(Name, Name)>,
    admin: bool,
}

impl Model for RoleGrant {
    ghost use Rattle.au_grants.specs.Rights.{RoleEntry};

    ghost Value = { RoleEntry };

    ghost view = { λ g. (g.names.0, g.names.1, g.admin) };

    ghost inverse = { λ entry. record { names = (entry.0, entry.1); admin = entry.2 } };
}

impl RoleGrant {
    /// The grant. Where there is no memory, the names are dropped.
    pub(crate) fn new(
        alloc: Global,
        grantee: Name,
        role: Name,
        admin: bool,
    ) -> Result<RoleGrant, Memory>
        ensures { IfOk result (λ made. made ≡ (grantee, role, admin)) }
    {
        Ok(RoleGrant {
            names: Boxed::new(alloc, (grantee, role))?,
            admin,
        })
    }

    /// Who has it.
    pub fn grantee(&self) -> &Name
        ensures { result.now ≡ self.now.0 }
    {
        &self.names.get().0
    }

    /// The role.
    pub fn role(&self) -> &Name
        ensures { result.now ≡ self.now.1 }
    {
        &self.names.get().1
    }

    /// Whether it has the admin option.
    pub fn has_admin(&self) -> bool
        ensures { result ≡ self.now.2 }
    {
        self.admin
    }

    /// Gives it this admin option.
    pub(crate) fn set_admin(&mut self, admin: bool)
        ensures { self.new ≡ (self.old.0, self.old.1, admin) }
    {
        self.admin = admin;
    }
}

impl Clone for RoleGrant {
    ghost is_clone = { λ grant copy. copy ≡ grant };

    fn clone(&self) -> Result<Self, AllocError> {
        Ok(RoleGrant {
            names: self.names.clone()?,
            admin: self.admin,
        })
    }
}
