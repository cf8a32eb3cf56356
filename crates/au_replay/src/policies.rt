//! Changes of audit policies and of their enablements.
ghost use Rattle.std.specs.Prelude.{◌≡◌, ◌≢◌, ◌↔◌, IfOk, IsTrue, List, Option, map};
ghost use Rattle.std.specs.List.{list_all};
ghost use Rattle.au_base.specs.BuiltIn.{ora_mandatory};
ghost use Rattle.au_base.specs.declared.action.Action.{Action as AnyAction};
ghost use Rattle.au_base.specs.declared.privilege.Privilege.{Privilege as AnyPrivilege};
ghost use Rattle.au_base.specs.declared.table.TableName.{TableName as AnyTableName};
ghost use Rattle.au_entries.specs.declared.change.Change.TheVariants as change;
ghost use Rattle.au_entries.specs.Replaying.{IsPolicyCondition, has_policy, has_user, is_enabled, named_users};
ghost use Rattle.au_replay.specs.Reading.{IsShortText, conditions, when_text};
ghost use Rattle.au_replay.specs.Sights.{Goes, IsSorted, shown};

use crate::conditions::is_policy_condition;
use crate::finding::has_named;
use crate::sight::Sight;
use crate::users::has_user;
use au_base::built_in::ORA_MANDATORY;
use au_base::{Memory, Name, Text};
use au_entries::{Enabled, Evaluate, Outcomes};
use std::alloc::Global;

/// Whether the audit policy may be put: it hasn't the name of what is mandatory, and its condition,
/// where it has one, can be read and is a truth over no column. The tables and roles that it names
/// needn't be there.
pub fn policy_goes_on(
    alloc: Global,
    name: &Name,
    when: &Option<(Evaluate, Text)>,
) -> Result<bool, Memory>
    requires short { IsShortText (when_text when.now) }
    ensures { IfOk result (λ goes. IsTrue goes ↔ ((name.now ≢ ora_mandatory) × IsPolicyCondition conditions when.now)) }
{
    if is_reserved(name) {
        return Ok(false);
    }
    match when {
        None => Ok(true),
        Some(given) => is_policy_condition(alloc, given.1.as_bytes()),
    }
}

fn is_reserved(name: &Name) -> bool
    ensures { IsTrue result ↔ (name.now ≡ ora_mandatory) }
{
    name.as_str() == ORA_MANDATORY
}

/// Whether the audit policy may be dropped: it is there, and enabled for nobody.
pub fn policy_gone_goes_on(sight: &Sight<'_>, name: &Name) -> bool
    requires order { IsSorted sight.now }
    ensures { IsTrue result ↔ Goes sight.now (change.PolicyGone name.now) }
{
    has_policy(sight, name) && !is_enabled(sight, name)
}

/// Whether the audit policy may be enabled so: it and the users that the enablement names are there.
pub fn enable_goes_on(sight: &Sight<'_>, policy: &Name, enabled: &Enabled) -> bool
    requires order { IsSorted sight.now }
    ensures { IsTrue result ↔ Goes sight.now (change.Enable policy.now enabled.now) }
{
    has_policy(sight, policy) && names_users(sight, enabled)
}

// Whether the audit policy of this name is enabled for somebody.
fn is_enabled(sight: &Sight<'_>, name: &Name) -> bool
    requires order { IsSorted sight.now }
    ensures { result ≡ is_enabled (shown sight.now) name.now }
{
    has_named(sight.enabled, name.as_str())
}

// Whether an audit policy of this name is there.
fn has_policy(sight: &Sight<'_>, name: &Name) -> bool
    requires order { IsSorted sight.now }
    ensures { result ≡ has_policy (shown sight.now) name.now }
{
    has_named(sight.policies, name.as_str())
}

// Whether all that the enablement names are users.
fn names_users(sight: &Sight<'_>, enabled: &Enabled) -> bool
    requires order { IsSorted sight.now }
    ensures { result ≡ list_all (has_user (shown sight.now)) (named_users enabled.now) }
{
    match enabled {
        Enabled::Off => true,
        Enabled::By(listed) => are_listed_users(sight, listed.as_slice()),
        Enabled::Except(names, _) => are_users(sight, names.as_slice()),
    }
}

fn are_users(sight: &Sight<'_>, names: &[Name]) -> bool
    requires order { IsSorted sight.now }
    ensures { result ≡ list_all (has_user (shown sight.now)) names.now }
{
    for name in names {
        if !has_user(sight, name) {
            return false;
        }
    }
    true
}

fn are_listed_users(sight: &Sight<'_>, listed: &[(Name, Outcomes)]) -> bool
    requires order { IsSorted sight.now }
    ensures { result ≡ list_all (has_user (shown sight.now)) (map (λ user. user.0) listed.now) }
{
    for user in listed {
        if !has_user(sight, &user.0) {
            return false;
        }
    }
    true
}
