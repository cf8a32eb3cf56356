//! What auditing has, found by one pass over it: at most 10,000 names are compared.
ghost use Rattle.std.specs.Prelude.{◌≡◌, not, IfOk};
ghost use Rattle.std.specs.List.{find, list_any};
ghost use Rattle.std.specs.Option.{option_copied};
ghost use Rattle.std.specs.Str.{bytes_eq};
ghost use Rattle.au_calls.specs.Settings.{lent};
ghost use Rattle.au_admin.specs.Looking.{enablement_of, has_policy, has_stranger, is_enabled};
ghost use Rattle.au_define.specs.Settings.{IsSorted, has_user, lent as lent_base};
ghost use Rattle.au_entries.specs.Demand.{enablement_of as enablement_in};

use au_base::{Memory, Name};
use au_calls::AuditCase;
use au_define::{Case, has_user};
use au_entries::{AuditPolicy, Enabled};

/// Whether an audit policy of this name is there.
pub fn has_policy(case: &AuditCase<'_>, name: &Name) -> bool
    ensures { result ≡ has_policy (lent case.now) name.now }
{
    some_policy(case.policies, name)
}

fn some_policy(policies: &[AuditPolicy], name: &Name) -> bool
    ensures { result ≡ list_any (λ policy. bytes_eq policy.name name.now) policies.now }
{
    policies.iter().any(|policy| policy.name == *name)
}

/// Whether the audit policy of this name is enabled for somebody.
pub fn is_enabled(case: &AuditCase<'_>, name: &Name) -> bool
    ensures { result ≡ is_enabled (lent case.now) name.now }
{
    some_entry(case.enabled, name)
}

fn some_entry(enabled: &[(Name, Enabled)], name: &Name) -> bool
    ensures { result ≡ list_any (λ entry. bytes_eq entry.0 name.now) enabled.now }
{
    enabled.iter().any(|entry| entry.0 == *name)
}

/// For whom the audit policy of this name is enabled.
pub fn enablement_of(case: &AuditCase<'_>, name: &Name) -> Result<Enabled, Memory>
    ensures { IfOk result (λ enabled. enabled ≡ enablement_of (lent case.now) name.now) }
{
    enablement_in(case.enabled, name)
}

fn enablement_in(enabled: &[(Name, Enabled)], name: &Name) -> Result<Enabled, Memory>
    ensures { IfOk result (λ found. found ≡ enablement_in enabled.now name.now) }
{
    match entry_of(enabled, name) {
        Some(entry) => Ok(entry.1.clone()?),
        None => Ok(Enabled::Off),
    }
}

fn entry_of<'a>(enabled: &'a [(Name, Enabled)], name: &Name) -> Option<&'a (Name, Enabled)>
    ensures { option_copied result ≡ find (λ entry. bytes_eq entry.0 name.now) enabled.now }
{
    enabled.iter().find(|entry| entry.0 == *name)
}

/// Whether some of these is no user.
pub fn has_stranger(case: &AuditCase<'_>, users: &[Name]) -> bool
    requires order { IsSorted case.now.case }
    ensures { result ≡ has_stranger (lent case.now) users.now }
{
    some_stranger(&case.case, users)
}

fn some_stranger(case: &Case<'_>, users: &[Name]) -> bool
    requires order { IsSorted case.now }
    ensures { result ≡ list_any (λ user. not (has_user (lent_base case.now) user)) users.now }
{
    users.iter().any(|user| !has_user(case, user))
}
