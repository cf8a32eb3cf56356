//! Tables whose touched rows are asked for.
ghost use Rattle.std.specs.Prelude.{◌≡◌};
ghost use Rattle.au_audit.specs.Firing.{names_type as type_named};
ghost use Rattle.au_plan.specs.Inside as spec;

use au_base::{Action, TableName, is_same_table};
use au_entries::FgaPolicy;

/// Whether one of the policies is enabled for the action on the table. It takes no memory.
pub fn is_watched(policies: &[FgaPolicy], action: Action, table: &TableName) -> bool
    ensures { result ≡ spec.is_watched policies.now action table.now }
{
    policies.iter().any(|policy| watches(policy, action, table))
}

fn watches(policy: &FgaPolicy, action: Action, table: &TableName) -> bool
    ensures { result ≡ spec.watches action table.now policy.now }
{
    policy.enabled && (names_type(policy.types, action) && is_same_table(&policy.name.table, table))
}

// Whether the number, in which 1 for SELECT, 2 for INSERT, 4 for UPDATE and 8 for DELETE are added
// up, names the action.
fn names_type(types: u8, action: Action) -> bool
    ensures { result ≡ type_named types action }
{
    match action {
        Action::Select => types % 2 == 1,
        Action::Insert => types / 2 % 2 == 1,
        Action::Update => types / 4 % 2 == 1,
        Action::Delete => types / 8 % 2 == 1,
        _ => false,
    }
}
