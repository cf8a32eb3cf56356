//! What a statement on rows comes to.

use au_base::{Code, List, Privilege, Reply};
use au_entries::FgaName;
use au_txn::RowChange;

/// What comes of a SELECT, INSERT, UPDATE or DELETE before it is made: its code; the system
/// privileges that made it possible, in the order of their numbers; its reply; the changes that it
/// makes; and the fine-grained policies that demand a record, by policy, owner and table. Where the
/// code isn't 0, there are neither changes nor policies.
#[derive(Debug, Drop)]
pub struct RowPlan {
    pub code: Code,
    pub used: List<Privilege>,
    pub reply: Reply,
    pub changes: List<RowChange>,
    pub fired: List<FgaName>,
}
