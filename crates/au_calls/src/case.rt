//! What a statement on auditing is decided by.

use au_base::{Name, Stamp};
use au_define::Case;
use au_entries::{AuditPolicy, Enabled, FgaPolicy, ReadCondition};

/// What a statement on auditing is decided by: what those on tables, users, roles and grants are;
/// what auditing has; and what is known of the event.
#[derive(Clone, Copy)]
pub struct AuditCase<'a> {
    pub case: Case<'a>,
    pub policies: &'a [AuditPolicy],
    /// The enablements that aren't `Off`, by the names of their policies.
    pub enabled: &'a [(Name, Enabled)],
    pub fga: &'a [FgaPolicy],
    /// The archive timestamp of the audit trail, where one is set.
    pub archive: Option<Stamp>,
    /// The stamp of the event.
    pub stamp: Stamp,
    /// What became of the condition in the statement.
    pub read: &'a ReadCondition,
}
