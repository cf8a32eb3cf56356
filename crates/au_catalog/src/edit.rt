//! Edits of the catalogue.

use au_base::{Name, Stamp, TableName};
use au_entries::{AuditPolicy, Enabled, FgaPolicy, Table};

/// An edit of the catalogue that has all that it puts in, so that it is made with no memory.
#[derive(Debug, Drop, PartialEq, Eq)]
pub enum Edit {
    /// The user is there with this verifier.
    PutUser(Name, [u8; 32]),
    /// The user goes, with its places in enablements.
    DropUser(Name),
    /// The role is there.
    PutRole(Name),
    /// The role goes.
    DropRole(Name),
    /// The table is there.
    PutTable(Table),
    /// The table goes, with its fine-grained policies.
    DropTable(TableName),
    /// The audit policy is there with these parts.
    PutPolicy(AuditPolicy),
    /// The audit policy goes.
    DropPolicy(Name),
    /// The audit policy is enabled so.
    Enable(Name, Enabled),
    /// The fine-grained policy is there with these parts.
    PutFga(FgaPolicy),
    /// The fine-grained policy of the table goes.
    DropFga(TableName, Name),
    /// The archive timestamp is this, or isn't set.
    SetArchive(Option<Stamp>),
}
