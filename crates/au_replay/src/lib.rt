//! The rule by which a journal is replayed, as tests: whether a change goes on from what is kept; and
//! of a frame, whether its stamp and its users are right, and whether what it touched is whole: its
//! rows, its tables and the counts of all lists.
#![tactic(auto)]

mod conditions;
mod finding;
mod fine_grained;
mod fitting;
mod going;
mod grants;
mod instance;
mod laws;
mod policies;
mod rows;
mod shape;
mod sight;
mod tables;
mod touched;
mod users;
mod whole;

pub use conditions::{fga_condition, policy_condition};
pub use fine_grained::{fga_goes_on, fga_gone_goes_on};
pub use fitting::fits;
pub use going::goes_on;
pub use grants::{
    obj_grant_goes_on, obj_revoke_goes_on, role_grant_goes_on, role_revoke_goes_on,
    sys_grant_goes_on, sys_revoke_goes_on,
};
pub use instance::{archive_goes_on, is_from_last, start_goes_on};
pub use laws::{conditions_resolve, sights_suffice, touched_parts_suffice};
pub use policies::{enable_goes_on, policy_goes_on, policy_gone_goes_on};
pub use rows::{gone_goes_on, put_goes_on};
pub use shape::is_table;
pub use sight::{GrantsSeen, Sight};
pub use tables::{table_goes_on, table_gone_goes_on};
pub use touched::touched_is_whole;
pub use users::{role_goes_on, role_gone_goes_on, user_gone_goes_on};
pub use whole::{are_few, has_sys};
