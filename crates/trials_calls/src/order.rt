//! Whether a catalogue's policies stand in order and can be asked.
ghost use Rattle.std.specs.Prelude.{◌≡◌, IfOk, IsTrue, map};
ghost use Rattle.std.specs.List.{AllByRecursion};
ghost use Rattle.std.specs.Option.{option_copied};
ghost use Rattle.au_base.specs.Order.{is_in_order, name_before};
ghost use Rattle.au_policy.specs.Asking.{CanBeAsked, IsTruthOverNone};
ghost use Rattle.trials_calls.specs.Rising.{comes_behind};

use au_base::{Memory, Name};
use au_catalog::Catalog;
use au_entries::{AuditPolicy, Enabled};
use au_expr::resolve_condition;
use std::alloc::Global;

/// Whether the policies of the catalogue and their enablements stand in order, and their conditions
/// are truths.
pub fn can_be_asked(alloc: Global, catalog: &Catalog) -> Result<bool, Memory>
    ensures { IfOk result (λ can. IsTrue can → CanBeAsked catalog.now) }
{
    let policies = policy_names(alloc, catalog.policies.as_slice())?;
    let enabled = enabled_names(alloc, catalog.enabled.as_slice())?;
    let in_order = are_in_order(policies.as_slice());
    let enabled_in_order = are_in_order(enabled.as_slice());
    let truths = are_truths(alloc, catalog.policies.as_slice())?;
    Ok(in_order && enabled_in_order && truths)
}

fn are_truths(alloc: Global, policies: &[AuditPolicy]) -> Result<bool, Memory>
    ensures { IfOk result (λ truths. IsTrue truths → AllByRecursion (λ policy. IsTruthOverNone policy.when) policies.now) }
{
    for policy in policies {
        if !is_truth(alloc, policy)? {
            return Ok(false);
        }
    }
    Ok(true)
}

fn is_truth(alloc: Global, policy: &AuditPolicy) -> Result<bool, Memory>
    ensures { IfOk result (λ truth. IsTrue truth → IsTruthOverNone policy.now.when) }
{
    match &policy.when {
        None => Ok(true),
        Some((_, condition)) => {
            let resolved = resolve_condition(alloc, &condition.tree, &[])?;
            Ok(resolved.is_ok())
        }
    }
}

// Whether each name comes before those behind it.
fn are_in_order(names: &[Name]) -> bool
    ensures { IsTrue result → IsTrue (is_in_order name_before names.now) }
{
    let mut last: Option<&Name> = None;
    for name in names {
        if !comes_behind(last, name) {
            return false;
        }
        last = Some(name);
    }
    true
}

// Whether the name comes behind the last one, where there is one.
fn comes_behind(last: Option<&Name>, name: &Name) -> bool
    ensures { result ≡ comes_behind (option_copied last.entry) name.now }
{
    match last {
        Some(last) => *last < *name,
        None => true,
    }
}

fn policy_names(alloc: Global, policies: &[AuditPolicy]) -> Result<Vec<Name>, Memory>
    ensures { IfOk result (λ names. names.items ≡ map (λ policy. policy.name) policies.now) }
{
    let mut names = Vec::new(alloc);
    for policy in policies {
        names.push(policy.name.clone()?)?;
    }
    Ok(names)
}

// The names of the policies that have an enablement, be it BY nobody.
fn enabled_names(alloc: Global, enabled: &[(Name, Enabled)]) -> Result<Vec<Name>, Memory>
    ensures { IfOk result (λ names. names.items ≡ map (λ entry. entry.0) enabled.now) }
{
    let mut names = Vec::new(alloc);
    for entry in enabled {
        names.push(entry.0.clone()?)?;
    }
    Ok(names)
}
