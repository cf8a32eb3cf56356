//! Conditions of policies, resolved.
ghost use Rattle.std.specs.Prelude.{◌≡◌, IfOk, map};
ghost use Rattle.std.specs.List.{AllByRecursion};
ghost use Rattle.au_pindex.specs.Indexing.{condition_of};
ghost use Rattle.au_policy.specs.Asking.{IsTruthOverNone};

use au_base::Memory;
use au_entries::AuditPolicy;
use au_expr::{Resolved, resolve_condition};
use std::alloc::Global;

/// The condition of each policy that has one, resolved over no table.
pub(crate) fn resolved(
    alloc: Global,
    policies: &[AuditPolicy],
) -> Result<Vec<Option<Resolved>>, Memory>
    requires { AllByRecursion (λ policy. IsTruthOverNone policy.when) policies.now }
    ensures { IfOk result (λ conditions. conditions.items ≡ map condition_of policies.now) }
{
    let mut conditions = Vec::new(alloc);
    for policy in policies {
        conditions.push(resolved_one(alloc, policy)?)?;
    }
    Ok(conditions)
}

fn resolved_one(alloc: Global, policy: &AuditPolicy) -> Result<Option<Resolved>, Memory>
    requires { IsTruthOverNone policy.now.when }
    ensures { IfOk result (λ condition. condition ≡ condition_of policy.now) }
{
    match &policy.when {
        None => Ok(None),
        Some((_, condition)) => match resolve_condition(alloc, &condition.tree, &[])? {
            Ok(resolved) => Ok(Some(resolved)),
            Err(_) => unreachable!(),
        },
    }
}
