//! What a statement sees of the world, and what a query answers over it.
#![tactic(auto)]

mod built_in;
mod candidate_rows;
mod columns;
mod finding;
mod from_table;
mod laws;
mod looking;
mod query;
mod rights;
mod row_plan;
mod soundness;
mod sources;
mod world;

pub use au_query::Selected;
pub use candidate_rows::candidates;
pub use columns::columns_of;
pub use laws::{plans_hold, queries_have_one_answer, sound_worlds_are_sound_for_clients};
pub use query::select;
pub use rights::{TableRights, is_there, table_rights};
pub use row_plan::RowPlan;
pub use soundness::is_sound_for;
pub use world::World;
