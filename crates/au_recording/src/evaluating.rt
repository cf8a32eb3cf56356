//! How conditions of audit policies are evaluated.
ghost use Rattle.std.specs.Prelude.{◌≡◌, ◌≤◌, true, false, length};
ghost use Rattle.std.specs.List.Sorted.{IsPartitionPoint};
ghost use Rattle.au_audit.specs.Conditions.{is_evaluated_per};
ghost use Rattle.au_base.specs.Order.{name_before};
ghost use Rattle.au_entries.specs.declared.policy.Evaluate.{Evaluate as Evaluation};
ghost use Rattle.au_recording.specs.Keeping.{ArePoliciesOrdered, is_found, is_named_so, is_of};

use au_base::Name;
use au_entries::{AuditPolicy, Condition, Evaluate};

/// How the condition of the policy of this name is evaluated, where the policy is there and has one.
/// The policies stand in byte order, and are halved until it is found.
pub fn evaluation_of(policies: &[AuditPolicy], name: &Name) -> Option<Evaluate>
    requires order { ArePoliciesOrdered policies.now }
    ensures { (evaluate : Evaluation) → is_of evaluate policies.now name.now ≡ is_found evaluate result }
{
    let place = policy_place(policies, name);
    if place < policies.len() {
        return named_evaluation(&policies[place], name);
    }
    None
}

// The same of this policy, where it has the name.
fn named_evaluation(policy: &AuditPolicy, name: &Name) -> Option<Evaluate>
    ensures { (evaluate : Evaluation) → is_named_so evaluate name.now policy.now ≡ is_found evaluate result }
{
    if policy.name == *name {
        return evaluation(&policy.when);
    }
    None
}

fn evaluation(when: &Option<(Evaluate, Condition)>) -> Option<Evaluate>
    ensures { (evaluate : Evaluation) → is_evaluated_per evaluate when.now ≡ is_found evaluate result }
{
    match when {
        Some((evaluate, _)) => Some(*evaluate),
        None => None,
    }
}

// The place behind the policies whose names come before this one.
fn policy_place(policies: &[AuditPolicy], name: &Name) -> usize
    requires order { ArePoliciesOrdered policies.now }
    ensures bound { result ≤ length policies.now }
    ensures place { IsPartitionPoint (λ policy. name_before policy.name name.now ≡ true) (λ policy. name_before policy.name name.now ≡ false) policies.now result }
{
    policies.partition_point(|policy| policy.name < *name)
}
