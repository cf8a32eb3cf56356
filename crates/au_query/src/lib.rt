//! Queries over the rows of several tables.
#![tactic(auto)]

mod combo;
mod counting;
mod cutting;
mod fixing;
mod laws;
mod naming;
mod output;
mod overflow;
mod planning;
mod query;
mod ranking;
mod refusing;
mod reply;
mod residual;
mod scan;
mod selected;
mod size;
mod source;
mod tables;
mod touching;

pub use counting::count;
pub use fixing::{
    count_never_overflows, fixed_by_where, fixed_cells, fixed_cells_of_count, never_overflows,
    where_never_overflows,
};
pub use laws::replies_are_one;
pub use query::select;
pub use selected::Selected;
pub use source::{Source, are_sound};
