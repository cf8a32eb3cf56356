//! What a new audit policy is for.
ghost use Rattle.std.specs.Prelude.{◌≡◌, ◌++◌, ◌∷◌, [], if◌then◌else◌, IfOk, OnOk, map, option_map};
ghost use Rattle.std.specs.List.{filter, list_any};
ghost use Rattle.au_calls.specs.Once.{once};
ghost use Rattle.au_admin.specs.Policies.{actions_of, evaluate_of, new_policy, part_of, privileges_of, roles_of, same_part, same_place, when_of};
ghost use Rattle.au_base.specs.BuiltIn.{resolved_table};
ghost use Rattle.au_base.specs.Sameness.{same_privilege};

use au_base::{
    Action, List, Memory, Name, Privilege, TableName, TableReference, Text, is_same_action,
    is_same_privilege, is_same_table, same_is_equal,
};
use au_calls::names_once;
use au_entries::{Change, Evaluate};
use sql_ast::{ActionPart, CreatePolicy, Evaluation, PolicyCondition};
use std::alloc::Global;

/// The policy as it is created by the user, as a change. Its action parts are compared pairwise: a
/// statement's text has room for some 3,600.
pub fn new_policy(alloc: Global, user: &Name, create: &CreatePolicy) -> Result<List<Change>, Memory>
    ensures { IfOk result (λ changes. changes ≡ new_policy user.now create.now ∷ []) }
{
    let privileges = privileges_of(alloc, create)?;
    let actions = actions_of(alloc, user, create)?;
    let roles = roles_of(alloc, create)?;
    let when = when_of(&create.condition)?;
    let mut changes = List::new(alloc);
    changes.push(Change::Policy {
        name: create.policy.clone()?,
        privileges,
        actions,
        roles,
        when,
    })?;
    Ok(changes)
}

// The system privileges that are named, in the order of their numbers.
fn privileges_of(alloc: Global, create: &CreatePolicy) -> Result<List<Privilege>, Memory>
    ensures { IfOk result (λ privileges. privileges ≡ privileges_of create.now) }
{
    match &create.privileges {
        None => Ok(List::new(alloc)),
        Some(named) => in_order(alloc, &Privilege::EACH, named.as_slice()),
    }
}

fn in_order(
    alloc: Global,
    each: &[Privilege],
    named: &[Privilege],
) -> Result<List<Privilege>, Memory>
    ensures { IfOk result (λ privileges. privileges ≡ filter (λ privilege. list_any (same_privilege privilege) named.now) each.now) }
{
    let mut privileges = List::new(alloc);
    for privilege in each {
        push_named(&mut privileges, *privilege, named)?;
    }
    Ok(privileges)
}

fn push_named(
    privileges: &mut List<Privilege>,
    privilege: Privilege,
    named: &[Privilege],
) -> Result<(), Memory>
    ensures { OnOk result (privileges.new ≡ privileges.old ++ (if list_any (same_privilege privilege) named.now then privilege ∷ [] else [])) }
{
    if is_named(privilege, named) {
        privileges.push(privilege)?;
    }
    Ok(())
}

fn is_named(privilege: Privilege, named: &[Privilege]) -> bool
    ensures { result ≡ list_any (same_privilege privilege) named.now }
{
    named
        .iter()
        .any(|other| is_same_privilege(privilege, *other))
}

// The action parts as they are first written, each once.
fn actions_of(
    alloc: Global,
    user: &Name,
    create: &CreatePolicy,
) -> Result<List<(Action, Option<TableName>)>, Memory>
    ensures { IfOk result (λ actions. actions ≡ actions_of user.now create.now) }
{
    match &create.actions {
        None => Ok(List::new(alloc)),
        Some(parts) => parts_once(alloc, user, parts.as_slice()),
    }
}

fn parts_once(
    alloc: Global,
    user: &Name,
    parts: &[ActionPart],
) -> Result<List<(Action, Option<TableName>)>, Memory>
    ensures { IfOk result (λ actions. actions ≡ once same_part (map (part_of user.now) parts.now)) }
{
    same_is_equal();
    let mut actions = List::new(alloc);
    for part in parts {
        push_once(&mut actions, part_of(alloc, user, part)?)?;
    }
    Ok(actions)
}

// Adds the part where it isn't there.
fn push_once(
    actions: &mut List<(Action, Option<TableName>)>,
    part: (Action, Option<TableName>),
) -> Result<(), Memory>
    ensures { OnOk result (actions.new ≡ (if list_any (same_part part) actions.old then actions.old else actions.old ++ part ∷ [])) }
{
    if !is_listed(&part, actions.as_slice()) {
        actions.push(part)?;
    }
    Ok(())
}

fn is_listed(part: &(Action, Option<TableName>), parts: &[(Action, Option<TableName>)]) -> bool
    ensures { result ≡ list_any (same_part part.now) parts.now }
{
    parts.iter().any(|other| is_same_part(part, other))
}

fn is_same_part(a: &(Action, Option<TableName>), b: &(Action, Option<TableName>)) -> bool
    ensures { result ≡ same_part a.now b.now }
{
    is_same_action(a.0, b.0) && is_same_place(&a.1, &b.1)
}

fn is_same_place(a: &Option<TableName>, b: &Option<TableName>) -> bool
    ensures { result ≡ same_place a.now b.now }
{
    match a {
        None => b.is_none(),
        Some(a) => match b {
            None => false,
            Some(b) => is_same_table(a, b),
        },
    }
}

fn part_of(
    alloc: Global,
    user: &Name,
    part: &ActionPart,
) -> Result<(Action, Option<TableName>), Memory>
    ensures { IfOk result (λ made. made ≡ part_of user.now part.now) }
{
    Ok((part.action, place_of(alloc, user, &part.table)?))
}

fn place_of(
    alloc: Global,
    user: &Name,
    table: &Option<TableReference>,
) -> Result<Option<TableName>, Memory>
    ensures { IfOk result (λ place. place ≡ option_map (resolved_table user.now) table.now) }
{
    match table {
        None => Ok(None),
        Some(table) => Ok(Some(table.resolved(alloc, user)?)),
    }
}

// The roles as they are first written, each once.
fn roles_of(alloc: Global, create: &CreatePolicy) -> Result<List<Name>, Memory>
    ensures { IfOk result (λ roles. roles ≡ roles_of create.now) }
{
    match &create.roles {
        None => Ok(List::new(alloc)),
        Some(roles) => names_once(alloc, roles.as_slice()),
    }
}

// The condition as the catalogue has it.
fn when_of(condition: &Option<PolicyCondition>) -> Result<Option<(Evaluate, Text)>, Memory>
    ensures { IfOk result (λ when. when ≡ option_map when_of condition.now) }
{
    match condition {
        None => Ok(None),
        Some(condition) => {
            let evaluate = evaluate_of(condition.evaluation);
            Ok(Some((evaluate, condition.text.clone()?)))
        }
    }
}

fn evaluate_of(evaluation: Evaluation) -> Evaluate
    ensures { result ≡ evaluate_of evaluation }
{
    match evaluation {
        Evaluation::Statement => Evaluate::Statement,
        Evaluation::Session => Evaluate::Session,
        Evaluation::Instance => Evaluate::Instance,
    }
}
