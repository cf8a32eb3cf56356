//! The catalogue: what stands in it, and which policies are meant for a statement.
#![tactic(auto)]

mod catalog;
mod counts;
mod edit;
mod editing;
mod edits;
mod keyed;
mod kind;
mod laws;
mod lists;
mod placing;
mod room;
mod staged;
mod staging;

pub use au_audit::as_row;
pub use au_entries::{
    AuditPolicy, Busy, Change, Condition, Decision, Demanded, Enabled, Evaluate, Facts, FgaName,
    FgaPolicy, Kept, KeptResults, Outcomes, ReadCondition, Record, RecordKind, Table, enabled_for,
    matches,
};
pub use catalog::Catalog;
pub use laws::{catalogues_change_by_their_parts, edits_make_what_changes_make};
pub use staged::Staged;
