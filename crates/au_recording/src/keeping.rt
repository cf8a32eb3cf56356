//! Results of conditions that are kept.
ghost use Rattle.std.specs.Prelude.{◌≡◌, ◌≤◌, IfOk, OnOk, drop as drop_list, if◌then◌else◌, length, not, take};
ghost use Rattle.std.specs.List.{filter, list_any};
ghost use Rattle.std.specs.Str.{bytes_eq};
ghost use Rattle.au_audit.specs.Conditions as conditions;
ghost use Rattle.au_audit.specs.Conditions.{forgetting, of_evaluation, result_before, with_results};
ghost use Rattle.au_base.specs.Order.{name_before, placed};
ghost use Rattle.au_entries.specs.declared.policy.Evaluate.{Evaluate};
ghost use Rattle.au_policy.specs.Asking.{AreInOrder};
ghost use Rattle.au_recording.specs.Keeping.{ArePoliciesOrdered, AreRising, is_found};

use crate::evaluating::evaluation_of;
use au_base::{List, Memory, Name};
use au_entries::{AuditPolicy, Evaluate, KeptResults};
use std::alloc::Global;

/// The results that are kept after a statement that learnt these, and forgets those of these
/// policies. A result is kept in the session or in the instance, as its policy's condition is
/// evaluated.
pub fn results_after(
    alloc: Global,
    policies: &[AuditPolicy],
    learnt: List<(Name, bool)>,
    forgets: &[Name],
    kept: &KeptResults,
) -> Result<KeptResults, Memory>
    requires policies { ArePoliciesOrdered policies.now }
    requires order { AreInOrder kept.now }
    ensures { IfOk result (λ results. results ≡ conditions.results_after policies.now learnt forgets.now kept.now) }
{
    let mut session = kept.session.as_slice().to_vec(alloc)?;
    let mut instance = kept.instance.as_slice().to_vec(alloc)?;
    keep_all(policies, learnt, &mut session, &mut instance)?;
    Ok(KeptResults {
        session: left_of(session, forgets),
        instance: left_of(instance, forgets),
    })
}

fn left_of(results: Vec<(Name, bool)>, forgets: &[Name]) -> List<(Name, bool)>
    ensures { result ≡ forgetting forgets.now results.items }
{
    let mut left = List::from_vec(results);
    forget(&mut left, forgets);
    left
}

/// Drops the results of these policies. The others keep their order. It takes no memory.
pub fn forget(results: &mut List<(Name, bool)>, forgets: &[Name])
    ensures { results.new ≡ forgetting forgets.now results.old }
{
    results.retain(|kept| !is_among(forgets, &kept.0));
}

fn is_among(names: &[Name], name: &Name) -> bool
    ensures { result ≡ list_any (bytes_eq name.now) names.now }
{
    names.iter().any(|other| *name == *other)
}

// Places each of the results among those of the session or of the instance, the last first.
fn keep_all(
    policies: &[AuditPolicy],
    learnt: List<(Name, bool)>,
    session: &mut Vec<(Name, bool)>,
    instance: &mut Vec<(Name, bool)>,
) -> Result<(), Memory>
    requires policies { ArePoliciesOrdered policies.now }
    requires session_order { AreRising session.old.items }
    requires instance_order { AreRising instance.old.items }
    ensures session { OnOk result (session.new.items ≡ with_results (of_evaluation Evaluate.Session policies.now learnt) session.old.items) }
    ensures instance { OnOk result (instance.new.items ≡ with_results (of_evaluation Evaluate.Instance policies.now learnt) instance.old.items) }
{
    let mut rest = learnt;
    while let Some(last) = rest.pop() {
        let evaluation = evaluation_of(policies, &last.0);
        keep(evaluation, last, session, instance)?;
    }
    Ok(())
}

// Places the result of a condition that is evaluated so.
fn keep(
    evaluation: Option<Evaluate>,
    fresh: (Name, bool),
    session: &mut Vec<(Name, bool)>,
    instance: &mut Vec<(Name, bool)>,
) -> Result<(), Memory>
    requires session_order { AreRising session.old.items }
    requires instance_order { AreRising instance.old.items }
    ensures session { OnOk result (session.new.items ≡ (if is_found Evaluate.Session evaluation then placed result_before fresh session.old.items else session.old.items)) }
    ensures instance { OnOk result (instance.new.items ≡ (if is_found Evaluate.Instance evaluation then placed result_before fresh instance.old.items else instance.old.items)) }
{
    match evaluation {
        Some(Evaluate::Session) => place(session, fresh),
        Some(Evaluate::Instance) => place(instance, fresh),
        Some(Evaluate::Statement) | None => Ok(()),
    }
}

// Places the result behind those whose names come before its own.
fn place(results: &mut Vec<(Name, bool)>, fresh: (Name, bool)) -> Result<(), Memory>
    requires order { AreRising results.old.items }
    ensures { OnOk result (results.new.items ≡ placed result_before fresh results.old.items) }
{
    let place = result_place(results.as_slice(), &fresh.0);
    results.insert(place, fresh)?;
    Ok(())
}

// The place behind the results whose names come before this one.
fn result_place(results: &[(Name, bool)], name: &Name) -> usize
    requires order { AreRising results.now }
    ensures bound { result ≤ length results.now }
    ensures front { take result results.now ≡ filter (λ other. name_before other.0 name.now) results.now }
    ensures rest { drop_list result results.now ≡ filter (λ other. not (name_before other.0 name.now)) results.now }
{
    results.partition_point(|other| other.0 < *name)
}
