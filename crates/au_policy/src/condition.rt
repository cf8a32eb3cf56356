//! Conditions of audit policies.
ghost use Rattle.std.specs.Prelude.{◌≡◌, [], IfOk, unwrap_or};
ghost use Rattle.au_audit.specs.Conditions as conditions;
ghost use Rattle.au_expr.specs.Placing.{value_at};
ghost use Rattle.au_expr.specs.Resolving.{IsCondition};
ghost use Rattle.au_expr.specs.Values.{truth_in};
ghost use Rattle.au_policy.specs.Asking.{AreInOrder, IsTruthOverNone, truth_now};

use crate::finding::result_in;
use au_base::{Memory, Name, SessionNo, Truth};
use au_entries::{AuditPolicy, Evaluate, KeptResults};
use au_expr::{Resolved, Row, SessionFacts, names_or_places, resolve_condition, truth};
use sql_ast::Expr;
use std::alloc::Global;

/// Whether the policy's condition holds. Where its result isn't kept, it is evaluated.
pub fn holds(
    alloc: Global,
    policy: &AuditPolicy,
    kept: &KeptResults,
    session: &SessionFacts,
) -> Result<bool, Memory>
    requires truth { IsTruthOverNone policy.now.when }
    requires order { AreInOrder kept.now }
    ensures { IfOk result (λ holds. holds ≡ conditions.when_of (truth_now session.now) session.now.session kept.now policy.now) }
{
    match &policy.when {
        None => Ok(true),
        Some((evaluate, condition)) => {
            let known = kept_result(kept, session.session(), &policy.name, *evaluate);
            known_or_now(alloc, known, &condition.tree, session)
        }
    }
}

// The known result, or whether the condition is Yes now.
fn known_or_now(
    alloc: Global,
    known: Option<bool>,
    tree: &Expr,
    session: &SessionFacts,
) -> Result<bool, Memory>
    requires truth { IsCondition [] tree.now }
    ensures { IfOk result (λ holds. holds ≡ unwrap_or known (conditions.is_yes (truth_now session.now tree.now))) }
{
    match known {
        Some(holds) => Ok(holds),
        None => is_yes_now(alloc, tree, session),
    }
}

/// Whether the result of the policy's condition is kept from now on.
pub fn is_new(policy: &AuditPolicy, kept: &KeptResults, session: SessionNo) -> bool
    requires order { AreInOrder kept.now }
    ensures { result ≡ conditions.is_new session kept.now policy.now.name policy.now.when }
{
    match &policy.when {
        None => false,
        Some((evaluate, _)) => {
            is_kept(session, *evaluate)
                && kept_result(kept, session, &policy.name, *evaluate).is_none()
        }
    }
}

fn is_kept(session: SessionNo, evaluate: Evaluate) -> bool
    ensures { result ≡ conditions.is_kept session evaluate }
{
    match evaluate {
        Evaluate::Statement => false,
        Evaluate::Session => has_session(session),
        Evaluate::Instance => true,
    }
}

// Whether the number is that of a session: an event without one has 0.
fn has_session(number: SessionNo) -> bool
    ensures { result ≡ conditions.has_session number }
{
    number.0 != 0
}

/// The result that is kept of the policy's condition, which is evaluated so.
pub fn kept_result(
    kept: &KeptResults,
    session: SessionNo,
    policy: &Name,
    evaluate: Evaluate,
) -> Option<bool>
    requires order { AreInOrder kept.now }
    ensures { result ≡ conditions.kept_result session kept.now policy.now evaluate }
{
    match evaluate {
        Evaluate::Statement => None,
        Evaluate::Session => result_of_session(kept, session, policy),
        Evaluate::Instance => result_in(kept.instance.as_slice(), policy),
    }
}

fn result_of_session(kept: &KeptResults, session: SessionNo, policy: &Name) -> Option<bool>
    requires order { AreInOrder kept.now }
    ensures { result ≡ conditions.kept_result session kept.now policy.now Evaluate.Session }
{
    if has_session(session) {
        result_in(kept.session.as_slice(), policy)
    } else {
        None
    }
}

// Whether the condition is Yes now.
fn is_yes_now(alloc: Global, tree: &Expr, session: &SessionFacts) -> Result<bool, Memory>
    requires truth { IsCondition [] tree.now }
    ensures { IfOk result (λ yes. yes ≡ conditions.is_yes (truth_now session.now tree.now)) }
{
    names_or_places();
    match resolve_condition(alloc, tree, &[])? {
        Ok(resolved) => Ok(is_met(&resolved, session)),
        Err(_) => unreachable!(),
    }
}

/// Whether the condition, which is resolved over no table, is Yes now. One that overflows isn't.
pub fn is_met(resolved: &Resolved, session: &SessionFacts) -> bool
    ensures { result ≡ conditions.is_yes (truth_in (value_at [] session.now resolved.now)) }
{
    match truth(resolved, &Row::new(), session) {
        Ok(found) => is_yes(found),
        Err(_) => false,
    }
}

fn is_yes(truth: Truth) -> bool
    ensures { result ≡ conditions.is_yes truth }
{
    match truth {
        Truth::Yes => true,
        Truth::No | Truth::Unknown => false,
    }
}
