//! Which statements a policy is for.
ghost use Rattle.std.specs.Prelude.{◌≡◌};
ghost use Rattle.std.specs.List.{list_any};
ghost use Rattle.std.specs.Str.{bytes_eq};
ghost use Rattle.au_entries.specs.Matching.{covers_action, covers_privilege, covers_role, has_outcome, is_enabled_for, lists_outcome, names_action, names_table, parts_match};
ghost use Rattle.au_base.specs.Sameness.{same_privilege, same_table};
ghost use Rattle.au_grants.specs.Holding.{grants_privilege};

use crate::facts::Facts;
use crate::policy::{AuditPolicy, Enabled, Outcomes};
use au_base::{
    Action, Code, Name, Privilege, TableName, is_same_action, is_same_privilege, is_same_table,
    same_is_equal,
};
use au_grants::Grants;

/// Whether some part of the policy meets the statement.
pub fn matches(policy: &AuditPolicy, facts: &Facts, grants: &Grants) -> bool
    ensures { result ≡ parts_match grants.now facts.now policy.now }
{
    has_action(policy.actions.as_slice(), facts)
        || (has_privilege(policy.privileges.as_slice(), facts)
            || has_role(policy.roles.as_slice(), facts, grants))
}

/// Whether the policy is enabled for a statement of this user with this code.
pub fn enabled_for(enabled: &Enabled, user: &Name, code: Code) -> bool
    ensures { result ≡ is_enabled_for enabled.now user.now code }
{
    match enabled {
        Enabled::Off => false,
        Enabled::By(users) => lists_user(users.as_slice(), user, code),
        Enabled::Except(users, outcomes) => {
            !has_name(users.as_slice(), user) && has_outcome(*outcomes, code)
        }
    }
}

fn has_action(parts: &[(Action, Option<TableName>)], facts: &Facts) -> bool
    ensures { result ≡ list_any (covers_action facts.now) parts.now }
{
    parts.iter().any(|part| covers_action(facts, part))
}

fn covers_action(facts: &Facts, part: &(Action, Option<TableName>)) -> bool
    ensures { result ≡ covers_action facts.now part.now }
{
    names_action(facts.action, part.0) && names_table(facts.tables.as_slice(), &part.1)
}

fn names_action(action: Action, part: Action) -> bool
    ensures { result ≡ names_action action part }
{
    is_same_action(part, action) || is_same_action(part, Action::All)
}

fn names_table(tables: &[TableName], part: &Option<TableName>) -> bool
    ensures { result ≡ names_table tables.now part.now }
{
    match part {
        None => true,
        Some(table) => has_table(tables, table),
    }
}

fn has_table(tables: &[TableName], table: &TableName) -> bool
    ensures { result ≡ list_any (same_table table.now) tables.now }
{
    tables.iter().any(|other| is_same_table(table, other))
}

fn has_privilege(privileges: &[Privilege], facts: &Facts) -> bool
    ensures { result ≡ list_any (covers_privilege facts.now) privileges.now }
{
    privileges
        .iter()
        .any(|privilege| is_used(facts.used.as_slice(), *privilege))
}

fn is_used(used: &[Privilege], privilege: Privilege) -> bool
    ensures { result ≡ list_any (same_privilege privilege) used.now }
{
    used.iter()
        .any(|other| is_same_privilege(privilege, *other))
}

fn has_role(roles: &[Name], facts: &Facts, grants: &Grants) -> bool
    ensures { result ≡ list_any (covers_role grants.now facts.now) roles.now }
{
    roles
        .iter()
        .any(|role| covers_role(grants, facts.used.as_slice(), role))
}

fn covers_role(grants: &Grants, used: &[Privilege], role: &Name) -> bool
    ensures { result ≡ list_any (λ privilege. list_any (grants_privilege role.now privilege) grants.now.system) used.now }
{
    used.iter()
        .any(|privilege| is_granted(grants, role, *privilege))
}

fn is_granted(grants: &Grants, role: &Name, privilege: Privilege) -> bool
    ensures { result ≡ list_any (grants_privilege role.now privilege) grants.now.system }
{
    same_is_equal();
    grants.is_privilege_granted(role, privilege)
}

fn lists_user(users: &[(Name, Outcomes)], user: &Name, code: Code) -> bool
    ensures { result ≡ list_any (lists_outcome user.now code) users.now }
{
    users
        .iter()
        .any(|entry| entry.0 == *user && has_outcome(entry.1, code))
}

fn has_name(users: &[Name], user: &Name) -> bool
    ensures { result ≡ list_any (bytes_eq user.now) users.now }
{
    users.iter().any(|other| *user == *other)
}

fn has_outcome(outcomes: Outcomes, code: Code) -> bool
    ensures { result ≡ has_outcome outcomes code }
{
    if code.0 == 0 {
        outcomes.success
    } else {
        outcomes.failure
    }
}
