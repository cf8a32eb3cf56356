//! What a frame leaves.
ghost use Rattle.std.specs.Prelude.{◌≡◌, ◌↔◌, ◌≤◌, IsTrue};
ghost use Rattle.au_base.specs.BuiltIn.{sys};
ghost use Rattle.au_base.specs.Limits.{GRANTS};
ghost use Rattle.au_entries.specs.Replaying.{has_user};
ghost use Rattle.au_grants.specs.Rights.{grant_count};
ghost use Rattle.au_replay.specs.Sights.{IsSorted, grants_of, shown};
ghost use Rattle.au_replay.specs.Touched.{AreFew};

use crate::finding::has_named;
use crate::sight::{GrantsSeen, Sight};
use au_base::built_in::SYS;
use au_base::limits::{CATALOG_OBJECTS, GRANTS};

/// Whether SYS is a user.
pub fn has_sys(sight: &Sight<'_>) -> bool
    requires order { IsSorted sight.now }
    ensures { result ≡ has_user (shown sight.now) sys }
{
    has_named(sight.users, SYS)
}

/// Whether the counts of all lists are within their limits.
pub fn are_few(sight: &Sight<'_>) -> bool
    ensures { IsTrue result ↔ AreFew (shown sight.now) }
{
    sight.users.len() <= CATALOG_OBJECTS
        && sight.roles.len() <= CATALOG_OBJECTS
        && sight.tables.len() <= CATALOG_OBJECTS
        && sight.policies.len() <= CATALOG_OBJECTS
        && sight.fga.len() <= CATALOG_OBJECTS
        && grants_are_few(&sight.grants)
}

// Whether there are no more grants of all kinds together than there may be.
fn grants_are_few(grants: &GrantsSeen<'_>) -> bool
    ensures { IsTrue result ↔ (grant_count (grants_of grants.now) ≤ GRANTS) }
{
    let system = grants.system_grants().len();
    let role = grants.role_grants().len();
    let object = grants.object_grants().len();
    system <= GRANTS && role <= GRANTS - system && object <= GRANTS - system - role
}
