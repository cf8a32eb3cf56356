//! Policies by their names, found by halving.
ghost use Rattle.std.specs.Prelude.{◌≡◌, ◌≤◌, true, false, IfErr, IfOk, IsTrue, length, map};
ghost use Rattle.std.specs.List.Sorted.{IsPartitionPoint};
ghost use Rattle.au_base.specs.Order.{is_in_order, name_before};
ghost use Rattle.au_pindex.specs.descent.Finding.{BelongsAt, StandsAt};

use au_base::Name;
use au_entries::AuditPolicy;

/// Where the policy of this name stands, or else where it would stand.
pub(crate) fn find_policy(policies: &[AuditPolicy], name: &Name) -> Result<usize, usize>
    requires order { IsTrue (is_in_order name_before (map (λ policy. policy.name) policies.now)) }
    ensures found { IfOk result (StandsAt name.now policies.now) }
    ensures missing { IfErr result (BelongsAt name.now policies.now) }
{
    let place = place_of(policies, name);
    if place < policies.len() && policies[place].name == *name {
        return Ok(place);
    }
    Err(place)
}

// The place behind the policies whose names come before this one.
fn place_of(policies: &[AuditPolicy], name: &Name) -> usize
    requires order { IsTrue (is_in_order name_before (map (λ policy. policy.name) policies.now)) }
    ensures bound { result ≤ length policies.now }
    ensures place { IsPartitionPoint (λ policy. name_before policy.name name.now ≡ true) (λ policy. name_before policy.name name.now ≡ false) policies.now result }
{
    policies.partition_point(|policy| policy.name < *name)
}
