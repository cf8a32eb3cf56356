//! Roles to which privileges are granted.
ghost use Rattle.std.specs.Prelude.{◌≡◌};
ghost use Rattle.std.specs.List.{list_any};
ghost use Rattle.au_entries.specs.Matching.{covers_role};
ghost use Rattle.au_grants.specs.Holding.{grants_privilege};

use au_base::{Name, Privilege, same_is_equal};
use au_entries::Facts;
use au_grants::Grants;

/// Whether some privilege that was used is granted to the role directly. The grants are halved.
pub(crate) fn is_covered(grants: &Grants, facts: &Facts, role: &Name) -> bool
    ensures { result ≡ covers_role grants.now facts.now role.now }
{
    facts
        .used
        .iter()
        .any(|privilege| is_granted(grants, role, *privilege))
}

fn is_granted(grants: &Grants, role: &Name, privilege: Privilege) -> bool
    ensures { result ≡ list_any (grants_privilege role.now privilege) grants.now.system }
{
    same_is_equal();
    grants.is_privilege_granted(role, privilege)
}
