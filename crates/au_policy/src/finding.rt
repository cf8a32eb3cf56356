//! Entries by names, found by halving.
ghost use Rattle.std.specs.Prelude.{◌≡◌, ◌≤◌, true, false, IsTrue, MatchOption, None, Some, length, map};
ghost use Rattle.std.specs.List.{find};
ghost use Rattle.std.specs.List.Sorted.{IsPartitionPoint};
ghost use Rattle.std.specs.Str.{bytes_eq};
ghost use Rattle.au_audit.specs.Conditions as conditions;
ghost use Rattle.au_audit.specs.Conditions.{result_before};
ghost use Rattle.au_base.specs.Order.{is_in_order, name_before};
ghost use Rattle.au_entries.specs.Demand.{enablement_of};
ghost use Rattle.au_entries.specs.Enabling.{is_on};
ghost use Rattle.au_entries.specs.Matching.{is_enabled_for};

use au_base::{Code, Name};
use au_entries::{Enabled, enabled_for};

/// The result of the policy's condition among these.
pub fn result_in(results: &[(Name, bool)], policy: &Name) -> Option<bool>
    requires order { IsTrue (is_in_order result_before results.now) }
    ensures { result ≡ conditions.result_in results.now policy.now }
{
    let place = name_place(results, policy);
    if place < results.len() && results[place].0 == *policy {
        return Some(results[place].1);
    }
    None
}

/// Whether the policy of this name is enabled for a statement of this user with this code.
pub fn is_enabled(enabled: &[(Name, Enabled)], policy: &Name, user: &Name, code: Code) -> bool
    requires order { IsTrue (is_in_order name_before (map (λ entry. entry.0) enabled.now)) }
    ensures { result ≡ is_enabled_for (enablement_of enabled.now policy.now) user.now code }
{
    let place = name_place(enabled, policy);
    if place < enabled.len() && enabled[place].0 == *policy {
        return enabled_for(&enabled[place].1, user, code);
    }
    false
}

/// Whether the policy of this name is enabled for somebody.
pub fn is_policy_on(enabled: &[(Name, Enabled)], policy: &Name) -> bool
    requires order { IsTrue (is_in_order name_before (map (λ entry. entry.0) enabled.now)) }
    ensures { result ≡ is_on (enablement_of enabled.now policy.now) }
{
    let place = name_place(enabled, policy);
    if place < enabled.len() && enabled[place].0 == *policy {
        return enabled[place].1.is_on();
    }
    false
}

// The place behind the entries whose names come before this one.
fn name_place<T>(entries: &[(Name, T)], name: &Name) -> usize
    requires order { IsTrue (is_in_order (λ a b. name_before a.0 b.0) entries.now) }
    ensures bound { result ≤ length entries.now }
    ensures place { IsPartitionPoint (λ entry. name_before entry.0 name.now ≡ true) (λ entry. name_before entry.0 name.now ≡ false) entries.now result }
{
    entries.partition_point(|entry| entry.0 < *name)
}
