//! What the catalogue and the trail have, what a frame changes of it, and which policies are meant
//! for a statement.
#![tactic(auto)]

mod change;
mod decision;
mod facts;
mod fine_grained;
mod images;
mod kept;
mod laws;
mod matching;
mod policy;
mod results;
mod table;
mod trail_record;

pub use change::Change;
pub use decision::{Busy, Decision, ReadCondition};
pub use facts::{Demanded, Facts};
pub use fine_grained::{FgaName, FgaPolicy};
pub use images::images_come_back;
pub use kept::Kept;
pub use laws::{
    changes_keep_bounds, changes_keep_laws, changes_keep_order, demanded_names_stand_in_order,
    frames_keep_laws,
};
pub use matching::{enabled_for, matches};
pub use policy::{AuditPolicy, Condition, Enabled, Evaluate, Outcomes};
pub use results::KeptResults;
pub use table::Table;
pub use trail_record::{Record, RecordKind};
