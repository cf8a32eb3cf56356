//! What outlives an instance.

use crate::fine_grained::FgaPolicy;
use crate::policy::{AuditPolicy, Enabled};
use crate::table::Table;
use crate::trail_record::Record;
use au_base::{Cell, List, Name, RowNo, Stamp, TableName};
use au_grants::Grants;

/// What outlives an instance: the catalogue, the grants, the committed rows and the trail.
#[derive(Debug, Drop, PartialEq, Eq)]
pub struct Kept {
    /// Users, each with the verifier of its password.
    pub users: List<(Name, [u8; 32])>,
    pub roles: List<Name>,
    pub grants: Grants,
    pub tables: List<Table>,
    /// The committed rows, by table and number.
    pub rows: List<(TableName, RowNo, List<Cell>)>,
    pub policies: List<AuditPolicy>,
    /// The enablements that aren't `Off`, by the names of their policies.
    pub enabled: List<(Name, Enabled)>,
    pub fga: List<FgaPolicy>,
    /// The records, oldest first.
    pub trail: List<Record>,
    /// The archive timestamp of the audit trail, where one is set.
    pub archive: Option<Stamp>,
    /// The last stamp of an event that changed what is kept.
    pub last: Stamp,
    /// The number of the last instance, 0 before the first.
    pub instance: u32,
}
