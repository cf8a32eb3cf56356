//! Grants of object privileges.
ghost use Rattle.std.specs.Prelude.{◌≡◌, IfOk};

use au_base::{Action, Boxed, Memory, Name, TableName};
use std::alloc::{AllocError, Global};
use std::marker::Model;

/// A grant of an object privilege: the grantee, the table, the action. The names stand in a box, so
/// that a place in a list of many is made by moving little.
#[derive(Debug, Drop, PartialEq, Eq)]
pub struct ObjectGrant {
    names: Boxed<(Name, TableName)>,
    action: Action,
}

impl Model for ObjectGrant {
    ghost use Rattle.au_grants.specs.Rights.{ObjectEntry};

    ghost Value = { ObjectEntry };

    ghost view = { λ g. (g.names.0, g.names.1, g.action) };

    ghost inverse = { λ entry. record { names = (entry.0, entry.1); action = entry.2 } };
}

impl ObjectGrant {
    /// The grant. Where there is no memory, the names are dropped.
    pub(crate) fn new(
        alloc: Global,
        grantee: Name,
        table: TableName,
        action: Action,
    ) -> Result<ObjectGrant, Memory>
        ensures { IfOk result (λ made. made ≡ (grantee, table, action)) }
    {
        Ok(ObjectGrant {
            names: Boxed::new(alloc, (grantee, table))?,
            action,
        })
    }

    /// Who has it.
    pub fn grantee(&self) -> &Name
        ensures { result.now ≡ self.now.0 }
    {
        &self.names.get().0
    }

    /// The table.
    pub fn table(&self) -> &TableName
        ensures { result.now ≡ self.now.1 }
    {
        &self.names.get().1
    }

    /// The action.
    pub fn action(&self) -> Action
        ensures { result ≡ self.now.2 }
    {
        self.action
    }
}

impl Clone for ObjectGrant {
    ghost is_clone = { λ grant copy. copy ≡ grant };

    fn clone(&self) -> Result<Self, AllocError> {
        Ok(ObjectGrant {
            names: self.names.clone()?,
            action: self.action,
        })
    }
}
