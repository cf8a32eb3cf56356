//! How the calls of DBMS_AUDIT_MGMT are decided.
ghost use Rattle.std.specs.Prelude.{◌≡◌, ◌&&◌, Some, IfOk, codes};
ghost use Rattle.std.specs.Option.{option_copied};
ghost use Rattle.std.specs.Str.{bytes_eq};
ghost use Rattle.au_calls.specs.Archiving.{archive_time, archiving, before_of, by_timestamp, clean_trail, clear_archive, is_other_trail, is_unified, moment_in, purging, same_archive, set_archive};
ghost use Rattle.au_calls.specs.Settings.{lent};

use crate::arguments::{given, truth_in};
use crate::case::AuditCase;
use crate::rights::AuditRights;
use crate::rules::{Effect, changes_alone, decide_by};
use au_base::{Code, List, Memory, Name, Stamp};
use au_entries::{Change, Decision};
use sql_ast::{Argument, Parameter, Value};
use std::alloc::Global;

/// What is decided of SET_LAST_ARCHIVE_TIMESTAMP by a user with these rights.
pub fn set_archive(
    alloc: Global,
    case: &AuditCase<'_>,
    rights: AuditRights,
    arguments: &[Argument],
) -> Result<Decision, Memory>
    ensures { IfOk result (λ decision. decision ≡ set_archive rights (lent case.now) arguments.now) }
{
    let time = archive_time(case, arguments);
    let others = [
        (is_other_trail(arguments), Code::BAD_MANAGEMENT_ARGUMENT),
        (time.is_none(), Code::BAD_MANAGEMENT_ARGUMENT),
    ];
    let changes = archiving(alloc, case.archive, time)?;
    let effect = changes_alone(alloc, changes);
    Ok(decide_by(alloc, !rights.admin, &others, List::new(alloc), effect))
}

/// What is decided of CLEAR_LAST_ARCHIVE_TIMESTAMP by a user with these rights.
pub fn clear_archive(
    alloc: Global,
    case: &AuditCase<'_>,
    rights: AuditRights,
    arguments: &[Argument],
) -> Result<Decision, Memory>
    ensures { IfOk result (λ decision. decision ≡ clear_archive rights (lent case.now) arguments.now) }
{
    let others = [(is_other_trail(arguments), Code::BAD_MANAGEMENT_ARGUMENT)];
    let changes = archiving(alloc, case.archive, None)?;
    let effect = changes_alone(alloc, changes);
    Ok(decide_by(alloc, !rights.admin, &others, List::new(alloc), effect))
}

/// What is decided of CLEAN_AUDIT_TRAIL by a user with these rights.
pub fn clean_trail(
    alloc: Global,
    case: &AuditCase<'_>,
    rights: AuditRights,
    arguments: &[Argument],
) -> Decision
    ensures { result ≡ clean_trail rights (lent case.now) arguments.now }
{
    let by_timestamp = by_timestamp(arguments);
    let others = [
        (is_other_trail(arguments), Code::BAD_MANAGEMENT_ARGUMENT),
        (by_timestamp.is_none(), Code::BAD_MANAGEMENT_ARGUMENT),
    ];
    let before = before_of(case.archive, by_timestamp.unwrap_or(true));
    let effect = purging(alloc, before);
    decide_by(alloc, !rights.admin, &others, List::new(alloc), effect)
}

// The call is of another type of trail than the unified one.
fn is_other_trail(arguments: &[Argument]) -> bool
    ensures { result ≡ is_other_trail arguments.now }
{
    !is_unified(given(arguments, Parameter::AuditTrailType))
}

fn is_unified(value: Option<&Value>) -> bool
    ensures { result ≡ is_unified (option_copied value.entry) }
{
    match value {
        Some(Value::Constant(home, name)) => is_unified_name(home, name),
        _ => false,
    }
}

fn is_unified_name(home: &Name, name: &Name) -> bool
    ensures { result ≡ (bytes_eq home.now (codes "DBMS_AUDIT_MGMT") && bytes_eq name.now (codes "AUDIT_TRAIL_UNIFIED")) }
{
    home.as_str() == "DBMS_AUDIT_MGMT" && name.as_str() == "AUDIT_TRAIL_UNIFIED"
}

fn archive_time(case: &AuditCase<'_>, arguments: &[Argument]) -> Option<Stamp>
    ensures { result ≡ archive_time (lent case.now) arguments.now }
{
    moment_in(case.stamp, given(arguments, Parameter::LastArchiveTime))
}

// SYSTIMESTAMP is the event's stamp.
fn moment_in(stamp: Stamp, value: Option<&Value>) -> Option<Stamp>
    ensures { result ≡ moment_in stamp (option_copied value.entry) }
{
    match value {
        Some(Value::Now) => Some(stamp),
        Some(Value::Moment(moment)) => Some(Stamp(*moment)),
        _ => None,
    }
}

fn by_timestamp(arguments: &[Argument]) -> Option<bool>
    ensures { result ≡ by_timestamp arguments.now }
{
    truth_in(given(arguments, Parameter::UseLastArchTimestamp))
}

// The archive timestamp as a change, unless it is the one that stands.
fn archiving(
    alloc: Global,
    standing: Option<Stamp>,
    archive: Option<Stamp>,
) -> Result<List<Change>, Memory>
    ensures { IfOk result (λ changes. changes ≡ archiving standing archive) }
{
    let mut changes = List::new(alloc);
    if !is_same_archive(standing, archive) {
        changes.push(Change::Archive(archive))?;
    }
    Ok(changes)
}

fn is_same_archive(a: Option<Stamp>, b: Option<Stamp>) -> bool
    ensures { result ≡ same_archive a b }
{
    match a {
        None => b.is_none(),
        Some(a) => match b {
            None => false,
            Some(b) => a.0 == b.0,
        },
    }
}

// The moment before which records go; all of them where there is none.
fn before_of(archive: Option<Stamp>, by_timestamp: bool) -> Option<Stamp>
    ensures { result ≡ before_of archive by_timestamp }
{
    if by_timestamp {
        Some(archive.unwrap_or(Stamp(0)))
    } else {
        None
    }
}

fn purging(alloc: Global, before: Option<Stamp>) -> Effect
    ensures { result ≡ purging before }
{
    Effect {
        changes: List::new(alloc),
        purge: Some(before),
        forgets: List::new(alloc),
    }
}
