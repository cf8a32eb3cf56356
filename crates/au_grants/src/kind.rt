//! Kinds of grants.
ghost use Rattle.std.specs.Prelude.{◌≡◌, ◌≤◌, length};
ghost use Rattle.std.specs.List.{filter};
ghost use Rattle.au_grants.specs.descent.Editing.{adds};

use crate::change::GrantChange;

/// What a grant is of.
#[derive(Clone, Copy)]
pub enum Kind {
    Privilege,
    Role,
    Object,
}

/// How many of the changes grant something of the kind.
pub fn count_of(kind: Kind, changes: &[GrantChange]) -> usize
    ensures count { result ≡ length (filter (adds kind) changes.now) }
    ensures few { result ≤ length changes.now }
{
    changes.iter().filter(|change| adds(kind, change)).count()
}

fn adds(kind: Kind, change: &GrantChange) -> bool
    ensures { result ≡ adds kind change.now }
{
    matches!(
        (kind, change),
        (Kind::Privilege, GrantChange::SystemGrant(..))
            | (Kind::Role, GrantChange::RoleGrant(..))
            | (Kind::Object, GrantChange::ObjectGrant(..))
    )
}
