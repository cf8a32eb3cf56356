//! Transactions over the rows of one store: committed rows, and one list of changes for each client.
#![tactic(auto)]

mod change;
mod desk;
mod finals;
mod laws;
mod listing;
mod log;
mod named;
mod row_name;
mod view;
mod writing;

pub use change::RowChange;
pub use desk::Desk;
pub use finals::Final;
pub use laws::{
    clashes_are_told_before, contents_have_one_key, desks_stay_keyed, finals_settle,
    keys_differ_by_points, keys_stay, laid_rows_answer, lone_clients_meet_no_lock,
    rows_are_triples, rows_are_what_they_answer, rows_stand_by_tables, tables_go_with_their_rows,
};
pub use log::Log;
pub use view::View;
