//! Grants: what was granted to whom, who holds what by it, and what changes make of it.
#![tactic(auto)]

mod applying;
mod change;
mod circle;
mod course;
mod direct;
mod draft;
mod edit;
mod edits;
mod granting;
mod grants;
mod growing;
mod holding;
mod kind;
mod laws;
mod lists;
mod lone;
mod object_grant;
mod places;
mod right;
mod role_grant;
mod room;
mod searching;
mod staged;
mod system_grant;

pub use change::GrantChange;
pub use course::Course;
pub use direct::{has_object, has_privilege, has_privilege_as, has_role, has_role_as};
pub use draft::GrantDraft;
pub use grants::Grants;
pub use laws::{
    changes_add_one_grant_at_most, changes_keep_no_circle, changes_keep_order,
    drops_close_no_circle, grants_in_order_come_back,
};
pub use object_grant::ObjectGrant;
pub use right::Sought;
pub use role_grant::RoleGrant;
pub use staged::StagedGrants;
pub use system_grant::SystemGrant;
