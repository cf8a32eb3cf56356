//! Changes of what is kept.

use crate::policy::{Enabled, Evaluate};
use au_base::{Action, Cell, Column, List, Name, Privilege, RowNo, Stamp, TableName, Text};

/// A change of what is kept, as a frame of the journal has it.
#[derive(Debug, Drop, PartialEq, Eq)]
pub enum Change {
    /// The user is there with this verifier, in place of the one that it had.
    User(Name, [u8; 32]),
    /// The user is dropped, with what was granted to it and its places in enablements.
    UserGone(Name),
    /// The role is new.
    Role(Name),
    /// The role is dropped, with what was granted to it and its own grants.
    RoleGone(Name),
    /// The system privilege is granted to the grantee. The truth value is the admin option.
    SysGrant(Name, Privilege, bool),
    /// The system privilege is revoked from the grantee.
    SysRevoke(Name, Privilege),
    /// The role, which stands second, is granted to the grantee. The truth value is the admin
    /// option.
    RoleGrant(Name, Name, bool),
    /// The role, which stands second, is revoked from the grantee.
    RoleRevoke(Name, Name),
    /// The object privilege on the table is granted to the grantee: SELECT, INSERT, UPDATE or
    /// DELETE.
    ObjGrant(Name, TableName, Action),
    /// The object privilege on the table is revoked from the grantee.
    ObjRevoke(Name, TableName, Action),
    /// The table is new: its columns, and the places of the key's columns, from 0.
    Table(TableName, List<Column>, List<u32>),
    /// The table is dropped, with its rows, the privileges on it and its fine-grained policies.
    TableGone(TableName),
    /// The row is there with these cells, in place of those that it had.
    Put(TableName, RowNo, List<Cell>),
    /// The row is gone.
    Gone(TableName, RowNo),
    /// The audit policy is there with these parts, in place of those that it had.
    Policy {
        name: Name,
        /// System privileges, in the order of their numbers.
        privileges: List<Privilege>,
        /// Actions, each on one table where one is named.
        actions: List<(Action, Option<TableName>)>,
        roles: List<Name>,
        /// How often its condition is evaluated, and the condition's text.
        when: Option<(Evaluate, Text)>,
    },
    /// The audit policy is dropped.
    PolicyGone(Name),
    /// The audit policy is enabled so.
    Enable(Name, Enabled),
    /// The fine-grained policy of the table is there with these parts, in place of those that it
    /// had.
    Fga {
        table: TableName,
        policy: Name,
        /// The text of its condition.
        condition: Option<Text>,
        /// The relevant columns.
        columns: List<Name>,
        /// Whether all relevant columns have to be named, and not only one of them.
        all: bool,
        /// The kinds of statements: 1 for SELECT, 2 for INSERT, 4 for UPDATE and 8 for DELETE,
        /// summed.
        types: u8,
        enabled: bool,
    },
    /// The fine-grained policy of the table is dropped.
    FgaGone(TableName, Name),
    /// The archive timestamp of the audit trail is this, or isn't set.
    Archive(Option<Stamp>),
    /// An instance with this number begins.
    Start(u32),
}
