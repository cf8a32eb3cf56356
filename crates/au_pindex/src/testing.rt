//! Policies, tested one by one.
ghost use Rattle.std.specs.List.{slice_get};
ghost use Rattle.std.specs.Prelude.{◌≡◌, ◌≤◌, ◌<◌, ◌+◌, ◌++◌, ◌∷◌, [], IfOk, OnOk, Some, length, map, unwrap_or};
ghost use Rattle.au_audit.specs.Conditions.{is_yes, learnt, when_of};
ghost use Rattle.au_entries.specs.declared.policy.AuditPolicy.{AuditPolicy as AnyPolicy};
ghost use Rattle.au_entries.specs.Demand.{demanding};
ghost use Rattle.au_expr.specs.Resolving.{placed};
ghost use Rattle.au_pindex.specs.Indexing.{condition_of};
ghost use Rattle.au_pindex.specs.Naming.{count_named, is_named};
ghost use Rattle.au_pindex.specs.descent.Places.{places_where};
ghost use Rattle.au_policy.specs.Asking.{AreInOrder, CanBeAsked, IsTruthOverNone, truth_now};

use au_base::{List, Memory, Steps};
use au_catalog::Catalog;
use au_entries::{AuditPolicy, Condition, Demanded, Facts, KeptResults};
use au_expr::{Resolved, SessionFacts, names_or_places};
use au_grants::Grants;
use au_policy::{add_asked, is_meant, is_met, is_new, kept_result};
use std::alloc::Global;
use std::sync::ledger::Ledger;

/// A statement, and what its policies are asked by.
#[derive(Clone, Copy)]
pub(crate) struct Case<'a> {
    pub catalog: &'a Catalog,
    pub grants: &'a Grants,
    pub facts: &'a Facts,
    pub kept: &'a KeptResults,
    pub session: &'a SessionFacts,
}

/// What all policies demand, of which those at these places are tested, each once: the enabled ones
/// that name the statement.
pub(crate) fn test_all<L: Ledger>(
    alloc: Global,
    case: Case<'_>,
    conditions: &[Option<Resolved>],
    places: &[usize],
    steps: &mut Steps<L>,
) -> Result<Demanded, Memory>
    requires catalog { CanBeAsked case.catalog.now }
    requires order { AreInOrder case.kept.now }
    requires conditions { conditions.now ≡ map condition_of case.catalog.now.policies }
    requires places { places.now ≡ places_where (is_named case.grants.now case.catalog.now.enabled case.facts.now) 0 case.catalog.now.policies }
    requires count { length places.now ≡ count_named case.grants.now case.catalog.now case.facts.now }
    ensures names { IfOk result (λ found. found.names ≡ demanding (when_of (truth_now case.entry.session.now) case.entry.session.now.session case.entry.kept.now) case.entry.grants.now case.entry.catalog.now.enabled case.entry.catalog.now.policies case.entry.facts.now) }
    ensures learnt { IfOk result (λ found. found.learnt ≡ learnt (truth_now case.entry.session.now) case.entry.session.now.session case.entry.grants.now case.entry.catalog.now.enabled case.entry.kept.now case.entry.catalog.now.policies case.entry.facts.now) }
    ensures counts { steps.old ≤ steps.new }
    ensures steps { steps.new ≤ steps.old + count_named case.entry.grants.now case.entry.catalog.now case.entry.facts.now }
{
    let mut found = Demanded {
        names: List::new(alloc),
        learnt: List::new(alloc),
    };
    for place in places {
        test_at(case, conditions, *place, &mut found, steps)?;
    }
    Ok(found)
}

// Tests the policy at the place.
fn test_at<L: Ledger>(
    case: Case<'_>,
    conditions: &[Option<Resolved>],
    place: usize,
    found: &mut Demanded,
    steps: &mut Steps<L>,
) -> Result<(), Memory>
    requires catalog { CanBeAsked case.catalog.now }
    requires order { AreInOrder case.kept.now }
    requires conditions { conditions.now ≡ map condition_of case.catalog.now.policies }
    requires place { place < length case.catalog.now.policies }
    requires within { place < length conditions.now }
    ensures names { OnOk result ((policy : AnyPolicy) → slice_get case.entry.catalog.now.policies place ≡ Some policy → found.new.names ≡ found.old.names ++ demanding (when_of (truth_now case.entry.session.now) case.entry.session.now.session case.entry.kept.now) case.entry.grants.now case.entry.catalog.now.enabled (policy ∷ []) case.entry.facts.now) }
    ensures learnt { OnOk result ((policy : AnyPolicy) → slice_get case.entry.catalog.now.policies place ≡ Some policy → found.new.learnt ≡ found.old.learnt ++ learnt (truth_now case.entry.session.now) case.entry.session.now.session case.entry.grants.now case.entry.catalog.now.enabled case.entry.kept.now (policy ∷ []) case.entry.facts.now) }
    ensures step { steps.new ≡ steps.old + 1 }
{
    let policies = case.catalog.policies.as_slice();
    let policy = &policies[place];
    let condition = &conditions[place];
    test_one(case, policy, condition, found, steps)?;
    Ok(())
}

// Tests the policy, which has this condition: one step. What it demands is added.
fn test_one<L: Ledger>(
    case: Case<'_>,
    policy: &AuditPolicy,
    condition: &Option<Resolved>,
    found: &mut Demanded,
    steps: &mut Steps<L>,
) -> Result<(), Memory>
    requires catalog { CanBeAsked case.catalog.now }
    requires order { AreInOrder case.kept.now }
    requires truth { IsTruthOverNone policy.now.when }
    requires condition { condition.now ≡ condition_of policy.now }
    ensures names { OnOk result (found.new.names ≡ found.old.names ++ demanding (when_of (truth_now case.entry.session.now) case.entry.session.now.session case.entry.kept.now) case.entry.grants.now case.entry.catalog.now.enabled (policy.now ∷ []) case.entry.facts.now) }
    ensures learnt { OnOk result (found.new.learnt ≡ found.old.learnt ++ learnt (truth_now case.entry.session.now) case.entry.session.now.session case.entry.grants.now case.entry.catalog.now.enabled case.entry.kept.now (policy.now ∷ []) case.entry.facts.now) }
    ensures step { steps.new ≡ steps.old + 1 }
{
    steps.tick();
    if is_meant(policy, case.catalog, case.grants, case.facts) {
        let holds = holds(policy, condition, case.kept, case.session);
        let is_new = is_new(policy, case.kept, case.session.session());
        return add_asked(found, policy, is_new, holds);
    }
    Ok(())
}

// Whether the policy's condition, which is this one, holds.
fn holds(
    policy: &AuditPolicy,
    condition: &Option<Resolved>,
    kept: &KeptResults,
    session: &SessionFacts,
) -> bool
    requires order { AreInOrder kept.now }
    requires condition { condition.now ≡ condition_of policy.now }
    ensures { result ≡ when_of (truth_now session.now) session.now.session kept.now policy.now }
{
    match &policy.when {
        None => true,
        Some((evaluate, when)) => {
            let known = kept_result(kept, session.session(), &policy.name, *evaluate);
            known_or_now(known, when, condition, session)
        }
    }
}

// The known result, or whether the condition is Yes now.
fn known_or_now(
    known: Option<bool>,
    when: &Condition,
    condition: &Option<Resolved>,
    session: &SessionFacts,
) -> bool
    requires condition { condition.now ≡ Some (placed [] when.now.tree) }
    ensures { result ≡ unwrap_or known (is_yes (truth_now session.now when.now.tree)) }
{
    match known {
        Some(holds) => holds,
        None => is_yes_now(when, condition, session),
    }
}

// Whether the condition is Yes now.
fn is_yes_now(when: &Condition, condition: &Option<Resolved>, session: &SessionFacts) -> bool
    requires condition { condition.now ≡ Some (placed [] when.now.tree) }
    ensures { result ≡ is_yes (truth_now session.now when.now.tree) }
{
    names_or_places();
    match condition {
        Some(resolved) => is_met(resolved, session),
        None => unreachable!(),
    }
}
