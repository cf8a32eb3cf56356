//! What AUDIT and NOAUDIT make of an enablement.
ghost use Rattle.std.specs.Prelude.{◌≡◌, ◌++◌, IfOk, OnOk, map, not};
ghost use Rattle.std.specs.List.{filter};
ghost use Rattle.au_entries.specs.Enabling.{audit_made, audited_by, audited_except, each_once, for_users, is_among, newly_listed, noaudit_made, noaudited, noaudited_by, outcomes_named, widened, with_outcomes, with_users, without_users};
ghost use Rattle.au_entries.specs.declared.policy.Outcomes.{Outcomes};

use crate::names::{each_once, is_among, listed_names};
use au_base::{Code, List, Memory, Name};
use au_entries::{Enabled, Outcomes};
use indexmap::IndexSet;
use sql_ast::{AuditedUsers, Whenever};
use std::alloc::Global;

/// What AUDIT makes of an enablement, or the code by which it is refused: a policy that is enabled
/// for listed users can't be enabled for all but some, nor the other way round.
pub fn audited(
    alloc: Global,
    enabled: &Enabled,
    users: &Option<AuditedUsers>,
    whenever: &Option<Whenever>,
) -> Result<Result<Enabled, Code>, Memory>
    ensures { IfOk result (λ made. made ≡ audit_made users.now whenever.now enabled.now) }
{
    let outcomes = outcomes_named(whenever);
    match users {
        None => Ok(audited_except(Vec::new(alloc), outcomes, enabled)),
        Some(AuditedUsers::Except(users)) => {
            let once = each_once(alloc, users.as_slice())?;
            let users = once.as_slice().to_vec(alloc)?;
            Ok(audited_except(users, outcomes, enabled))
        }
        Some(AuditedUsers::By(users)) => audited_by(alloc, users.as_slice(), outcomes, enabled),
    }
}

/// What NOAUDIT makes of an enablement, or the code by which it is refused: the policy isn't enabled
/// in this way.
pub fn noaudited(
    alloc: Global,
    enabled: &Enabled,
    users: &Option<List<Name>>,
) -> Result<Result<Enabled, Code>, Memory>
    ensures { IfOk result (λ made. made ≡ noaudit_made users.now enabled.now) }
{
    match users {
        None => Ok(noaudited_for_all(enabled)),
        Some(users) => noaudited_by(alloc, users.as_slice(), enabled),
    }
}

fn outcomes_named(whenever: &Option<Whenever>) -> Outcomes
    ensures { result ≡ outcomes_named whenever.now }
{
    match whenever {
        None => Outcomes {
            success: true,
            failure: true,
        },
        Some(Whenever::Successful) => Outcomes {
            success: true,
            failure: false,
        },
        Some(Whenever::NotSuccessful) => Outcomes {
            success: false,
            failure: true,
        },
    }
}

// The outcomes that stand and those that are added.
fn with_outcomes(added: Outcomes, standing: Outcomes) -> Outcomes
    ensures { result ≡ with_outcomes added standing }
{
    Outcomes {
        success: standing.success || added.success,
        failure: standing.failure || added.failure,
    }
}

fn audited_except(users: Vec<Name>, outcomes: Outcomes, enabled: &Enabled) -> Result<Enabled, Code>
    ensures { result ≡ audited_except users.items outcomes enabled.now }
{
    match enabled {
        Enabled::Off => Ok(Enabled::Except(List::from_vec(users), outcomes)),
        Enabled::By(_) => Err(Code::OTHER_MODE),
        Enabled::Except(_, standing) => Ok(Enabled::Except(
            List::from_vec(users),
            with_outcomes(outcomes, *standing),
        )),
    }
}

fn audited_by(
    alloc: Global,
    users: &[Name],
    outcomes: Outcomes,
    enabled: &Enabled,
) -> Result<Result<Enabled, Code>, Memory>
    ensures { IfOk result (λ made. made ≡ audited_by users.now outcomes enabled.now) }
{
    match enabled {
        Enabled::Off => Ok(Ok(listing(alloc, users, outcomes, &[])?)),
        Enabled::By(listed) => Ok(Ok(listing(alloc, users, outcomes, listed.as_slice())?)),
        Enabled::Except(_, _) => Ok(Err(Code::OTHER_MODE)),
    }
}

fn noaudited_for_all(enabled: &Enabled) -> Result<Enabled, Code>
    ensures { result ≡ noaudited enabled.now }
{
    match enabled {
        Enabled::Off | Enabled::By(_) => Err(Code::NOT_ENABLED_SO),
        Enabled::Except(_, _) => Ok(Enabled::Off),
    }
}

fn noaudited_by(
    alloc: Global,
    users: &[Name],
    enabled: &Enabled,
) -> Result<Result<Enabled, Code>, Memory>
    ensures { IfOk result (λ made. made ≡ noaudited_by users.now enabled.now) }
{
    match enabled {
        Enabled::By(listed) => Ok(Ok(unlisting(alloc, users, listed.as_slice())?)),
        Enabled::Off | Enabled::Except(_, _) => Ok(Err(Code::NOT_ENABLED_SO)),
    }
}

// The enablement for the listed users and these.
fn listing(
    alloc: Global,
    users: &[Name],
    outcomes: Outcomes,
    listed: &[(Name, Outcomes)],
) -> Result<Enabled, Memory>
    ensures { IfOk result (λ made. made ≡ for_users (with_users users.now outcomes listed.now)) }
{
    Ok(for_users(with_users(alloc, users, outcomes, listed)?))
}

// The enablement for the listed users but these.
fn unlisting(alloc: Global, users: &[Name], listed: &[(Name, Outcomes)]) -> Result<Enabled, Memory>
    ensures { IfOk result (λ made. made ≡ for_users (without_users users.now listed.now)) }
{
    Ok(for_users(without_users(alloc, users, listed)?))
}

// The enablement for these users; for nobody where there is none.
fn for_users(users: Vec<(Name, Outcomes)>) -> Enabled
    ensures { result ≡ for_users users.items }
{
    if users.is_empty() {
        return Enabled::Off;
    }
    Enabled::By(List::from_vec(users))
}

// The listed users with these: those who are listed get the outcomes, and the others follow.
fn with_users(
    alloc: Global,
    users: &[Name],
    outcomes: Outcomes,
    listed: &[(Name, Outcomes)],
) -> Result<Vec<(Name, Outcomes)>, Memory>
    ensures { IfOk result (λ all. all.items ≡ with_users users.now outcomes listed.now) }
{
    let once = each_once(alloc, users)?;
    let there = listed_names(alloc, listed)?;
    let mut all = widened(alloc, &once, outcomes, listed)?;
    push_new(&mut all, once.as_slice(), outcomes, &there)?;
    Ok(all)
}

fn widened(
    alloc: Global,
    users: &IndexSet<Name>,
    outcomes: Outcomes,
    listed: &[(Name, Outcomes)],
) -> Result<Vec<(Name, Outcomes)>, Memory>
    ensures { IfOk result (λ all. all.items ≡ map (widened users.now.keys outcomes) listed.now) }
{
    let mut all = Vec::new(alloc);
    for entry in listed {
        all.push(widened_entry(users, outcomes, entry)?)?;
    }
    Ok(all)
}

fn widened_entry(
    users: &IndexSet<Name>,
    outcomes: Outcomes,
    entry: &(Name, Outcomes),
) -> Result<(Name, Outcomes), Memory>
    ensures { IfOk result (λ after. after ≡ widened users.now.keys outcomes entry.now) }
{
    if is_among(users, &entry.0) {
        Ok((entry.0.clone()?, with_outcomes(outcomes, entry.1)))
    } else {
        Ok((entry.0.clone()?, entry.1))
    }
}

// Adds the users who aren't listed.
fn push_new(
    all: &mut Vec<(Name, Outcomes)>,
    users: &[Name],
    outcomes: Outcomes,
    listed: &IndexSet<Name>,
) -> Result<(), Memory>
    ensures { OnOk result (all.new.items ≡ all.old.items ++ map (λ user. (user, outcomes)) (filter (λ user. not (is_among listed.now.keys user)) users.now)) }
{
    for user in users {
        if !is_among(listed, user) {
            all.push((user.clone()?, outcomes))?;
        }
    }
    Ok(())
}

// The listed users but these.
fn without_users(
    alloc: Global,
    users: &[Name],
    listed: &[(Name, Outcomes)],
) -> Result<Vec<(Name, Outcomes)>, Memory>
    ensures { IfOk result (λ left. left.items ≡ without_users users.now listed.now) }
{
    let once = each_once(alloc, users)?;
    without(alloc, &once, listed)
}

fn without(
    alloc: Global,
    users: &IndexSet<Name>,
    listed: &[(Name, Outcomes)],
) -> Result<Vec<(Name, Outcomes)>, Memory>
    ensures { IfOk result (λ left. left.items ≡ without_users users.now.keys listed.now) }
{
    let mut left = Vec::new(alloc);
    for entry in listed {
        if !is_among(users, &entry.0) {
            left.push((entry.0.clone()?, entry.1))?;
        }
    }
    Ok(left)
}
