//! Policies, asked one after another.
ghost use Rattle.std.specs.Prelude.{◌≡◌, ◌++◌, ◌∷◌, ◌&&◌, [], if◌then◌else◌, IfOk, OnOk};
ghost use Rattle.au_audit.specs.Conditions.{is_new, learnt, when_of};
ghost use Rattle.au_entries.specs.Demand.{demanding, is_enabled_in};
ghost use Rattle.au_entries.specs.Matching.{parts_match};
ghost use Rattle.au_policy.specs.Asking.{AreInOrder, CanBeAsked, IsTruthOverNone, truth_now};

use crate::condition::{holds, is_new};
use crate::finding::is_enabled;
use au_base::{List, Memory};
use au_catalog::Catalog;
use au_entries::{AuditPolicy, Demanded, Facts, KeptResults, matches};
use au_expr::SessionFacts;
use au_grants::Grants;
use std::alloc::Global;

/// What the policies of the catalogue demand, but for what is mandatory.
pub fn asked(
    alloc: Global,
    catalog: &Catalog,
    grants: &Grants,
    facts: &Facts,
    kept: &KeptResults,
    session: &SessionFacts,
) -> Result<Demanded, Memory>
    requires catalog { CanBeAsked catalog.now }
    requires order { AreInOrder kept.now }
    ensures names { IfOk result (λ found. found.names ≡ demanding (when_of (truth_now session.now) session.now.session kept.now) grants.now catalog.now.enabled catalog.now.policies facts.now) }
    ensures learnt { IfOk result (λ found. found.learnt ≡ learnt (truth_now session.now) session.now.session grants.now catalog.now.enabled kept.now catalog.now.policies facts.now) }
{
    let mut found = Demanded {
        names: List::new(alloc),
        learnt: List::new(alloc),
    };
    for policy in catalog.policies.as_slice() {
        if is_meant(policy, catalog, grants, facts) {
            ask(alloc, &mut found, policy, kept, session)?;
        }
    }
    Ok(found)
}

/// Whether the policy's parts meet the statement, and it is enabled for it.
pub fn is_meant(policy: &AuditPolicy, catalog: &Catalog, grants: &Grants, facts: &Facts) -> bool
    requires catalog { CanBeAsked catalog.now }
    ensures { result ≡ (parts_match grants.now facts.now policy.now && is_enabled_in catalog.now.enabled policy.now.name facts.now) }
{
    matches(policy, facts, grants)
        && is_enabled(
            catalog.enabled.as_slice(),
            &policy.name,
            &facts.user,
            facts.code,
        )
}

// Adds what the policy demands by its condition.
fn ask(
    alloc: Global,
    found: &mut Demanded,
    policy: &AuditPolicy,
    kept: &KeptResults,
    session: &SessionFacts,
) -> Result<(), Memory>
    requires truth { IsTruthOverNone policy.now.when }
    requires order { AreInOrder kept.now }
    ensures names { OnOk result (found.new.names ≡ found.old.names ++ (if when_of (truth_now session.now) session.now.session kept.now policy.now then policy.now.name ∷ [] else [])) }
    ensures learnt { OnOk result (found.new.learnt ≡ found.old.learnt ++ (if is_new session.now.session kept.now policy.now.name policy.now.when then (policy.now.name, when_of (truth_now session.now) session.now.session kept.now policy.now) ∷ [] else [])) }
{
    let holds = holds(alloc, policy, kept, session)?;
    add_asked(
        found,
        policy,
        is_new(policy, kept, session.session()),
        holds,
    )
}

/// Adds what a policy demands that is meant for the statement: its name, where its condition holds,
/// and the result of that, where it is kept from now on.
pub fn add_asked(
    found: &mut Demanded,
    policy: &AuditPolicy,
    is_new: bool,
    holds: bool,
) -> Result<(), Memory>
    ensures names { OnOk result (found.new.names ≡ found.old.names ++ (if holds then policy.now.name ∷ [] else [])) }
    ensures learnt { OnOk result (found.new.learnt ≡ found.old.learnt ++ (if is_new then (policy.now.name, holds) ∷ [] else [])) }
{
    push_name(found, policy, holds)?;
    push_result(found, policy, is_new, holds)
}

// Adds the policy's name, where its condition holds.
fn push_name(found: &mut Demanded, policy: &AuditPolicy, holds: bool) -> Result<(), Memory>
    ensures names { OnOk result (found.new.names ≡ found.old.names ++ (if holds then policy.now.name ∷ [] else [])) }
    ensures learnt { OnOk result (found.new.learnt ≡ found.old.learnt) }
{
    if holds {
        found.names.push(policy.name.clone()?)?;
    }
    Ok(())
}

// Adds the result of the policy's condition, where it is kept from now on.
fn push_result(
    found: &mut Demanded,
    policy: &AuditPolicy,
    is_new: bool,
    holds: bool,
) -> Result<(), Memory>
    ensures names { OnOk result (found.new.names ≡ found.old.names) }
    ensures learnt { OnOk result (found.new.learnt ≡ found.old.learnt ++ (if is_new then (policy.now.name, holds) ∷ [] else [])) }
{
    if is_new {
        found.learnt.push((policy.name.clone()?, holds))?;
    }
    Ok(())
}
