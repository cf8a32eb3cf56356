//! Rights that are looked for.

use au_base::{Action, Privilege, TableName};

/// A right that a user may hold.
#[derive(Clone, Copy)]
pub enum Sought<'a> {
    /// A role, with the admin option or without.
    Role(&'a str),
    /// A role with the admin option.
    RoleWithAdmin(&'a str),
    /// A system privilege, with the admin option or without.
    Privilege(Privilege),
    /// A system privilege with the admin option.
    PrivilegeWithAdmin(Privilege),
    /// One of the four system privileges on any table.
    AnyTable,
    /// An object privilege.
    Object(&'a TableName, Action),
    /// Some object privilege on the table.
    SomeObject(&'a TableName),
}
