//! What a user may do with a table, and how GRANT and REVOKE are decided. It passes on what
//! `au_grants` says of grants.
#![tactic(auto)]

mod allowed;
mod allowing;
mod decided;
mod deciding;
mod judging;
mod laws;
mod pair;
mod progress;
mod standing;
mod walking;

pub use allowed::Allowed;
pub use allowing::{allowed_on, refusal};
pub use au_grants::{
    GrantChange, GrantDraft, Grants, StagedGrants, changes_add_one_grant_at_most,
    changes_keep_no_circle, changes_keep_order, drops_close_no_circle, grants_in_order_come_back,
};
pub use decided::{Decided, Known};
pub use deciding::decide;
pub use laws::{decisions_keep_limits, rights_have_one_answer};
