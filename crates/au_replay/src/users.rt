//! Changes of users and roles.
ghost use Rattle.std.specs.Prelude.{◌≡◌, ◌↔◌, IsTrue};
ghost use Rattle.au_entries.specs.declared.change.Change.TheVariants as change;
ghost use Rattle.au_entries.specs.Replaying.{has_grantee, has_role, has_user};
ghost use Rattle.au_replay.specs.Sights.{Goes, IsSorted, shown};

use crate::finding::{has_named, owns_table};
use crate::sight::Sight;
use au_base::Name;

/// Whether a user of this name is there.
pub fn has_user(sight: &Sight<'_>, name: &Name) -> bool
    requires order { IsSorted sight.now }
    ensures { result ≡ has_user (shown sight.now) name.now }
{
    has_named(sight.users, name.as_str())
}

/// Whether a role of this name is there.
pub fn has_role(sight: &Sight<'_>, name: &Name) -> bool
    requires order { IsSorted sight.now }
    ensures { result ≡ has_role (shown sight.now) name.now }
{
    has_named(sight.roles, name.as_str())
}

/// Whether a user or a role of this name is there.
pub fn has_grantee(sight: &Sight<'_>, name: &Name) -> bool
    requires order { IsSorted sight.now }
    ensures { result ≡ has_grantee (shown sight.now) name.now }
{
    has_user(sight, name) || has_role(sight, name)
}

/// Whether the user may be dropped: it is there, and owns no table.
pub fn user_gone_goes_on(sight: &Sight<'_>, name: &Name) -> bool
    requires order { IsSorted sight.now }
    ensures { IsTrue result ↔ Goes sight.now (change.UserGone name.now) }
{
    has_user(sight, name) && !owns_table(sight.tables, name)
}

/// Whether the role is new.
pub fn role_goes_on(sight: &Sight<'_>, name: &Name) -> bool
    requires order { IsSorted sight.now }
    ensures { IsTrue result ↔ Goes sight.now (change.Role name.now) }
{
    !has_role(sight, name)
}

/// Whether the role may be dropped: it is there.
pub fn role_gone_goes_on(sight: &Sight<'_>, name: &Name) -> bool
    requires order { IsSorted sight.now }
    ensures { IsTrue result ↔ Goes sight.now (change.RoleGone name.now) }
{
    has_role(sight, name)
}
