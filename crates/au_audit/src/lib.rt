//! What is audited of a statement: its facts, what AUDIT and NOAUDIT make of an enablement, which
//! policies demand a record, and the records as rows.
#![tactic(auto)]

mod enabling;
mod laws;
mod names;
mod place;
mod statement;
mod trail_row;

pub use enabling::{audited, noaudited};
pub use laws::{fired_policies_stand_in_order, kept_results_stay_in_order, recorded_texts_fit};
pub use place::Place;
pub use statement::{action_of, object_of, recorded_text, tables_of};
pub use trail_row::as_row;
