//! Pairs in their order, each on the grants that the one before left.
ghost use Rattle.std.specs.Prelude.{◌≡◌, ◌∷◌, ◌++◌, ◌↔◌, [], IfOk, IsTrue, map, MatchOption, length};
ghost use Rattle.std.specs.List.{filter, list_any};
ghost use Rattle.au_base.specs.declared.code.Code.{Code};
ghost use Rattle.au_grants.specs.Changing.{Closes, applied_all, is_new};
ghost use Rattle.au_priv.specs.Pairs.{right_pair, object_pair, pairs};
ghost use Rattle.au_priv.specs.Walking.{RefusesPair, ClosesCircle, IsOverLimit, is_effective, missing_code, made};
ghost use Rattle.au_priv.specs.descent.Progressing.{Walked};

use crate::pair::{Way, changes_of_object_right, changes_of_right};
use crate::progress::Progress;
use au_base::{Code, List, Memory, Name, ObjectRight, Right, TableName};
use au_grants::GrantChange;
use std::alloc::Global;

/// Does the pairs of rights and grantees, up to the first that is refused.
pub fn walk_rights<'a>(
    alloc: Global,
    start: Progress<'a>,
    way: Way,
    rights: &[Right],
    grantees: &[Name],
) -> Result<Result<Progress<'a>, Code>, Memory>
    ensures { IfOk result (Walked start.entry (pairs (right_pair way) rights.now grantees.now)) }
{
    let mut progress = start;
    for right in rights {
        progress = match walk_right(alloc, progress, way, right, grantees)? {
            Ok(next) => next,
            Err(code) => return Ok(Err(code)),
        };
    }
    Ok(Ok(progress))
}

fn walk_right<'a>(
    alloc: Global,
    start: Progress<'a>,
    way: Way,
    right: &Right,
    grantees: &[Name],
) -> Result<Result<Progress<'a>, Code>, Memory>
    ensures { IfOk result (Walked start.entry (map (right_pair way right.now) grantees.now)) }
{
    let mut progress = start;
    for grantee in grantees {
        let pair = changes_of_right(alloc, way, right, grantee)?;
        progress = match walk_pair(alloc, progress, pair.as_slice())? {
            Ok(next) => next,
            Err(code) => return Ok(Err(code)),
        };
    }
    Ok(Ok(progress))
}

/// Does the pairs of rights on a table and grantees, up to the first that is refused.
pub fn walk_object_rights<'a>(
    alloc: Global,
    start: Progress<'a>,
    way: Way,
    table: &TableName,
    rights: &[ObjectRight],
    grantees: &[Name],
) -> Result<Result<Progress<'a>, Code>, Memory>
    ensures { IfOk result (Walked start.entry (pairs (object_pair way table.now) rights.now grantees.now)) }
{
    let mut progress = start;
    for right in rights {
        progress = match walk_object_right(alloc, progress, way, table, *right, grantees)? {
            Ok(next) => next,
            Err(code) => return Ok(Err(code)),
        };
    }
    Ok(Ok(progress))
}

fn walk_object_right<'a>(
    alloc: Global,
    start: Progress<'a>,
    way: Way,
    table: &TableName,
    right: ObjectRight,
    grantees: &[Name],
) -> Result<Result<Progress<'a>, Code>, Memory>
    ensures { IfOk result (Walked start.entry (map (object_pair way table.now right) grantees.now)) }
{
    let mut progress = start;
    for grantee in grantees {
        let pair = changes_of_object_right(alloc, way, table, right, grantee)?;
        progress = match walk_pair(alloc, progress, pair.as_slice())? {
            Ok(next) => next,
            Err(code) => return Ok(Err(code)),
        };
    }
    Ok(Ok(progress))
}

fn walk_pair<'a>(
    alloc: Global,
    start: Progress<'a>,
    pair: &[GrantChange],
) -> Result<Result<Progress<'a>, Code>, Memory>
    ensures { IfOk result (Walked start.entry (pair.now ∷ [])) }
{
    let mut progress = start;
    match pair_refusal(alloc, &mut progress, pair)? {
        Some(code) => Ok(Err(code)),
        None => Ok(Ok(walked_on(alloc, progress, pair)?)),
    }
}

// How far a statement is done after one pair more, which isn't refused.
fn walked_on<'a>(
    alloc: Global,
    progress: Progress<'a>,
    pair: &[GrantChange],
) -> Result<Progress<'a>, Memory>
    ensures changes { IfOk result (λ end. end.changes ≡ progress.entry.changes ++ made progress.entry.after pair.now) }
    ensures after { IfOk result (λ end. end.after ≡ applied_all (made progress.entry.after pair.now) progress.entry.after) }
{
    let made = effective(alloc, &progress, pair)?;
    progress.with(alloc, made)
}

// What the pair changes.
fn effective(
    alloc: Global,
    progress: &Progress<'_>,
    pair: &[GrantChange],
) -> Result<List<GrantChange>, Memory>
    ensures { IfOk result (λ changes. changes ≡ made progress.now.after pair.now) }
{
    let mut changes = List::new(alloc);
    for change in pair {
        if has_effect(progress, change) {
            changes.push(change.clone()?)?;
        }
    }
    Ok(changes)
}

// The refusal of the pair. The grants are as they were.
fn pair_refusal(
    alloc: Global,
    progress: &mut Progress<'_>,
    pair: &[GrantChange],
) -> Result<Option<Code>, Memory>
    ensures refusal { IfOk result (λ found. MatchOption found ((code : Code) → ¬ RefusesPair progress.old.after pair.now code) (RefusesPair progress.old.after pair.now)) }
    ensures same { progress.new ≡ progress.old }
{
    if closes_circle(alloc, progress, pair)? {
        return Ok(Some(Code::CIRCULAR_ROLE_GRANT));
    }
    open_refusal(alloc, progress, pair)
}

// The refusal of a pair that closes no circle.
fn open_refusal(
    alloc: Global,
    progress: &mut Progress<'_>,
    pair: &[GrantChange],
) -> Result<Option<Code>, Memory>
    requires { ¬ ClosesCircle progress.old.after.role pair.now }
    ensures refusal { IfOk result (λ found. MatchOption found ((code : Code) → ¬ RefusesPair progress.old.after pair.now code) (RefusesPair progress.old.after pair.now)) }
    ensures same { progress.new ≡ progress.old }
{
    if is_over_limit(alloc, progress, pair)? {
        return Ok(Some(Code::TOO_MANY_OBJECTS));
    }
    Ok(effect_refusal(&*progress, pair))
}

// The refusal of a pair that closes no circle and finds room.
fn effect_refusal(progress: &Progress<'_>, pair: &[GrantChange]) -> Option<Code>
    requires open { ¬ ClosesCircle progress.now.after.role pair.now }
    requires room { ¬ IsOverLimit progress.now.after pair.now }
    ensures { MatchOption result ((code : Code) → ¬ RefusesPair progress.now.after pair.now code) (RefusesPair progress.now.after pair.now) }
{
    if has_some_effect(progress, pair) {
        return None;
    }
    missing(pair)
}

fn closes_circle(
    alloc: Global,
    progress: &mut Progress<'_>,
    pair: &[GrantChange],
) -> Result<bool, Memory>
    ensures closes { IfOk result (λ closes. IsTrue closes ↔ ClosesCircle progress.old.after.role pair.now) }
    ensures same { progress.new ≡ progress.old }
{
    for change in pair {
        if closes(alloc, progress, change)? {
            return Ok(true);
        }
    }
    Ok(false)
}

fn closes(alloc: Global, progress: &mut Progress<'_>, change: &GrantChange) -> Result<bool, Memory>
    ensures closes { IfOk result (λ closes. IsTrue closes ↔ Closes progress.old.after.role change.now) }
    ensures same { progress.new ≡ progress.old }
{
    match change {
        GrantChange::RoleGrant(grantee, role, _) => progress.closes_circle(alloc, grantee, role),
        _ => Ok(false),
    }
}

fn is_over_limit(
    alloc: Global,
    progress: &mut Progress<'_>,
    pair: &[GrantChange],
) -> Result<bool, Memory>
    ensures over { IfOk result (λ over. IsTrue over ↔ IsOverLimit progress.old.after pair.now) }
    ensures same { progress.new ≡ progress.old }
{
    let more = new_count(&*progress, pair);
    if more == 0 {
        return Ok(false);
    }
    progress.is_full(alloc, more)
}

fn new_count(progress: &Progress<'_>, pair: &[GrantChange]) -> usize
    ensures { result ≡ length (filter (is_new progress.now.after) pair.now) }
{
    pair.iter()
        .filter(|change| is_new_grant(progress, change))
        .count()
}

fn has_some_effect(progress: &Progress<'_>, pair: &[GrantChange]) -> bool
    ensures { result ≡ list_any (is_effective progress.now.after) pair.now }
{
    pair.iter().any(|change| has_effect(progress, change))
}

fn has_effect(progress: &Progress<'_>, change: &GrantChange) -> bool
    ensures { result ≡ is_effective progress.now.after change.now }
{
    match change {
        GrantChange::SystemGrant(grantee, privilege, admin) => {
            !progress.has_privilege_as(grantee, *privilege, *admin)
        }
        GrantChange::SystemRevoke(grantee, privilege) => {
            progress.has_privilege(grantee, *privilege)
        }
        GrantChange::RoleGrant(grantee, role, admin) => {
            !progress.has_role_as(grantee, role.as_str(), *admin)
        }
        GrantChange::RoleRevoke(grantee, role) => { progress.has_role(grantee, role.as_str()) }
        GrantChange::ObjectGrant(grantee, table, action) => {
            !progress.has_object(grantee, table, *action)
        }
        GrantChange::ObjectRevoke(grantee, table, action) => {
            progress.has_object(grantee, table, *action)
        }
        _ => true,
    }
}

fn is_new_grant(progress: &Progress<'_>, change: &GrantChange) -> bool
    ensures { result ≡ is_new progress.now.after change.now }
{
    match change {
        GrantChange::SystemGrant(grantee, privilege, _) => {
            !progress.has_privilege(grantee, *privilege)
        }
        GrantChange::RoleGrant(grantee, role, _) => { !progress.has_role(grantee, role.as_str()) }
        GrantChange::ObjectGrant(grantee, table, action) => {
            !progress.has_object(grantee, table, *action)
        }
        _ => false,
    }
}

fn missing(pair: &[GrantChange]) -> Option<Code>
    ensures { result ≡ missing_code pair.now }
{
    match pair {
        [GrantChange::SystemRevoke(..), ..] => Some(Code::PRIVILEGE_NOT_GRANTED),
        [GrantChange::RoleRevoke(..), ..] => Some(Code::ROLE_NOT_GRANTED),
        [GrantChange::ObjectRevoke(..), ..] => Some(Code::OBJECT_PRIVILEGE_NOT_GRANTED),
        _ => None,
    }
}
