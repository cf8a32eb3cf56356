//! Grants of system privileges.
ghost use Rattle.std.specs.Prelude.{◌≡◌, IfOk};

use au_base::{Boxed, Memory, Name, Privilege};
use std::alloc::{AllocError, Global};
use std::marker::Model;

/// A grant of a system privilege: the grantee, the privilege, the admin option. The name stands in a
/// box, so that a place in a list of many is made by moving little.
#[derive(Debug, Drop, PartialEq, Eq)]
pub struct SystemGrant {
    grantee: Boxed<Name>,
    privilege: Privilege,
    admin: bool,
}

impl Model for SystemGrant {
    ghost use Rattle.au_grants.specs.Rights.{SystemEntry};

    ghost Value = { SystemEntry };

    ghost view = { λ g. (g.grantee, g.privilege, g.admin) };

    ghost inverse = { λ entry. record { grantee = entry.0; privilege = entry.1; admin = entry.2 } };
}

impl SystemGrant {
    /// The grant. Where there is no memory, the name is dropped.
    pub(crate) fn new(
        alloc: Global,
        grantee: Name,
        privilege: Privilege,
        admin: bool,
    ) -> Result<SystemGrant, Memory>
        ensures { IfOk result (λ made. made ≡ (grantee, privilege, admin)) }
    {
        Ok(SystemGrant {
            grantee: Boxed::new(alloc, grantee)?,
            privilege,
            admin,
        })
    }

    /// Who has it.
    pub fn grantee(&self) -> &Name
        ensures { result.now ≡ self.now.0 }
    {
        self.grantee.get()
    }

    /// The privilege.
    pub fn privilege(&self) -> Privilege
        ensures { result ≡ self.now.1 }
    {
        self.privilege
    }

    /// Whether it has the admin option.
    pub fn has_admin(&self) -> bool
        ensures { result ≡ self.now.2 }
    {
        self.admin
    }

    /// Gives it this admin option.
    pub(crate) fn set_admin(&mut self, admin: bool)
        ensures { self.new ≡ (self.old.0, self.old.1, admin) }
    {
        self.admin = admin;
    }
}

impl Clone for SystemGrant {
    ghost is_clone = { λ grant copy. copy ≡ grant };

    fn clone(&self) -> Result<Self, AllocError> {
        Ok(SystemGrant {
            grantee: self.grantee.clone()?,
            privilege: self.privilege,
            admin: self.admin,
        })
    }
}
