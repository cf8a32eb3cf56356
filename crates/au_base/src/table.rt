//! Tables and columns.
ghost use Rattle.std.specs.Prelude.{◌≡◌, IfOk, IsTrue, ◌↔◌};
ghost use Rattle.au_base.specs.BuiltIn.{dual, owner_of, resolved_table, trail};

use crate::built_in::{AUDSYS, DUAL, SYS, UNIFIED_AUDIT_TRAIL};
use crate::{Memory, Name};
use std::alloc::{AllocError, Global};

/// A table's owner and name.
#[derive(Debug, Drop, PartialEq, Eq, PartialOrd, Ord, Hash)]
pub struct TableName {
    pub owner: Name,
    pub name: Name,
}

impl Clone for TableName {
    ghost is_clone = { λ table copy. copy ≡ table };

    fn clone(&self) -> Result<Self, AllocError> {
        Ok(TableName {
            owner: self.owner.clone()?,
            name: self.name.clone()?,
        })
    }
}

impl TableName {
    /// Whether it is SYS.DUAL.
    pub fn is_dual(&self) -> bool
        ensures { IsTrue result ↔ (self.now ≡ dual) }
    {
        self.is(SYS, DUAL)
    }

    /// Whether it is AUDSYS.UNIFIED_AUDIT_TRAIL.
    pub fn is_trail(&self) -> bool
        ensures { IsTrue result ↔ (self.now ≡ trail) }
    {
        self.is(AUDSYS, UNIFIED_AUDIT_TRAIL)
    }

    fn is(&self, owner: &str, name: &str) -> bool
        ensures { IsTrue result ↔ (self.now ≡ record { owner = owner.now; name = name.now }) }
    {
        self.owner.as_str() == owner && self.name.as_str() == name
    }
}

/// A table as a statement names it, with its owner or without.
#[derive(Debug, Drop, PartialEq, Eq)]
pub struct TableReference {
    pub owner: Option<Name>,
    pub name: Name,
}

impl TableReference {
    /// The table that a user means: unqualified DUAL and UNIFIED_AUDIT_TRAIL are the built-in
    /// tables, and any other unqualified name is a table of the user's own schema.
    pub fn resolved(&self, alloc: Global, user: &Name) -> Result<TableName, Memory>
        ensures { IfOk result (λ table. table ≡ resolved_table user.now self.now) }
    {
        let owner = match &self.owner {
            Some(owner) => owner.clone()?,
            None => implied_owner(alloc, user, &self.name)?,
        };
        Ok(TableName {
            owner,
            name: self.name.clone()?,
        })
    }
}

fn implied_owner(alloc: Global, user: &Name, table: &Name) -> Result<Name, Memory>
    ensures { IfOk result (λ owner. owner ≡ owner_of user.now table.now) }
{
    if table.as_str() == DUAL {
        return Name::from_str(alloc, SYS);
    }
    if table.as_str() == UNIFIED_AUDIT_TRAIL {
        return Name::from_str(alloc, AUDSYS);
    }
    Ok(user.clone()?)
}

/// The type of a column (SQL Language Reference, "Oracle Built-in Data Types").
#[derive(Clone, Copy, Debug, PartialEq, Eq)]
pub enum ColumnKind {
    /// NUMBER, whole numbers.
    Number,
    /// VARCHAR2, in bytes.
    Text,
    /// TIMESTAMP(6).
    Moment,
}

/// A column of a table.
#[derive(Debug, Drop, PartialEq, Eq)]
pub struct Column {
    pub name: Name,
    pub kind: ColumnKind,
    /// The digits of a number, 1 to 18; the bytes of a text, 1 to 4000; 6 for a moment.
    pub size: u16,
    pub not_null: bool,
}

impl Clone for Column {
    ghost is_clone = { λ column copy. copy ≡ column };

    fn clone(&self) -> Result<Self, AllocError> {
        Ok(Column {
            name: self.name.clone()?,
            kind: self.kind,
            size: self.size,
            not_null: self.not_null,
        })
    }
}
