//! How statements on audit policies are decided; it passes on what `au_calls` decides of calls of
//! packages.
#![tactic(auto)]

mod deciding;
mod enabling;
mod laws;
mod looking;
mod names;
mod parts;
mod policies;
mod sameness;

pub use au_calls::{AuditCase, AuditRights, Effect, call};
pub use deciding::decide;
pub use enabling::{audit, noaudit};
pub use laws::{administration_holds, read_statements_are_short, read_statements_are_timely};
pub use names::administration_is_named;
pub use policies::{create_policy, drop_policy};
