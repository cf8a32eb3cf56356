//! The records that a statement leaves.
ghost use Rattle.std.specs.Prelude.{◌≡◌, ◌++◌, IfOk, OnOk, length, map};
ghost use Rattle.std.specs.List.{enumerate_from, list_any};
ghost use Rattle.au_base.specs.Sameness.{same_privilege};
ghost use Rattle.au_audit.specs.Records.{fine_grained_record, in_code_order, name_of, numbered, owner_of, records_of, unified_record};

use crate::numbering::entry_behind;
use au_audit::Place;
use au_base::{Code, List, Memory, Name, Privilege, Text, is_same_privilege};
use au_entries::{Demanded, Facts, FgaName, Record, RecordKind};
use std::alloc::Global;

/// The records that a statement leaves in the trail, in their order: one that names all policies
/// which demand a record, where some policy does, and behind it one for each fine-grained policy
/// that demands one. Their numbers are counted on from the place's, and stop at 999,999,999. It
/// takes time by the names and the policies that are given, and by the text once a record.
pub fn records(
    alloc: Global,
    facts: &Facts,
    demanded: &Demanded,
    fired: &[FgaName],
    at: &Place,
) -> Result<Vec<Record>, Memory>
    ensures { IfOk result (λ made. made.items ≡ records_of facts.now at.now demanded.now.names fired.now) }
{
    let mut made = Vec::new(alloc);
    if !demanded.names.is_empty() {
        made.push(unified_record(alloc, facts, demanded.names.as_slice(), at)?)?;
    }
    push_fine_grained(alloc, &mut made, facts, fired, at)?;
    Ok(made)
}

// Adds a record for each of the fine-grained policies.
fn push_fine_grained(
    alloc: Global,
    made: &mut Vec<Record>,
    facts: &Facts,
    fired: &[FgaName],
    at: &Place,
) -> Result<(), Memory>
    ensures { OnOk result (made.new.items ≡ made.old.items ++ map (numbered at.now.entry) (enumerate_from (length made.old.items) (map (fine_grained_record facts.now at.now) fired.now))) }
{
    for policy in fired {
        let places = made.len();
        made.push(fine_grained_record(alloc, facts, policy, places, at)?)?;
    }
    Ok(())
}

// The first record, which names these audit policies.
fn unified_record(
    alloc: Global,
    facts: &Facts,
    policies: &[Name],
    at: &Place,
) -> Result<Record, Memory>
    ensures { IfOk result (λ made. made ≡ numbered at.now.entry (0, unified_record facts.now at.now policies.now)) }
{
    let used = in_code_order(alloc, facts.used.as_slice())?;
    unified_with(alloc, facts, used, policies, at)
}

// The same with these privileges.
fn unified_with(
    alloc: Global,
    facts: &Facts,
    used: List<Privilege>,
    policies: &[Name],
    at: &Place,
) -> Result<Record, Memory>
    ensures { IfOk result (λ made. made ≡ record (numbered at.now.entry (0, unified_record facts.now at.now policies.now)) { used = used }) }
{
    Ok(Record {
        kind: RecordKind::Standard,
        session: at.session,
        entry: entry_behind(at.entry, 0),
        statement: at.statement,
        stamp: at.stamp,
        user: facts.user.clone()?,
        action: facts.action,
        schema: owner_of(&at.object)?,
        object: name_of(&at.object)?,
        sql: text_of(&at.sql)?,
        used,
        policies: names_of(alloc, policies)?,
        fga: None,
        code: facts.code,
    })
}

// The record of a fine-grained policy, so many places behind the first.
fn fine_grained_record(
    alloc: Global,
    facts: &Facts,
    policy: &FgaName,
    places: usize,
    at: &Place,
) -> Result<Record, Memory>
    ensures { IfOk result (λ made. made ≡ numbered at.now.entry (places, fine_grained_record facts.now at.now policy.now)) }
{
    Ok(Record {
        kind: RecordKind::FineGrained,
        session: at.session,
        entry: entry_behind(at.entry, places),
        statement: at.statement,
        stamp: at.stamp,
        user: facts.user.clone()?,
        action: facts.action,
        schema: Some(policy.table.owner.clone()?),
        object: Some(policy.table.name.clone()?),
        sql: text_of(&at.sql)?,
        used: List::new(alloc),
        policies: List::new(alloc),
        fga: Some(policy.policy.clone()?),
        code: Code::DONE,
    })
}

// The owner of the object, where it has one.
fn owner_of(object: &Option<(Option<Name>, Name)>) -> Result<Option<Name>, Memory>
    ensures { IfOk result (λ owner. owner ≡ owner_of object.now) }
{
    match object {
        Some((Some(owner), _)) => Ok(Some(owner.clone()?)),
        _ => Ok(None),
    }
}

// The object's name.
fn name_of(object: &Option<(Option<Name>, Name)>) -> Result<Option<Name>, Memory>
    ensures { IfOk result (λ name. name ≡ name_of object.now) }
{
    match object {
        Some((_, name)) => Ok(Some(name.clone()?)),
        None => Ok(None),
    }
}

fn text_of(text: &Option<Text>) -> Result<Option<Text>, Memory>
    ensures { IfOk result (λ copy. copy ≡ text.now) }
{
    match text {
        Some(text) => Ok(Some(text.clone()?)),
        None => Ok(None),
    }
}

fn names_of(alloc: Global, names: &[Name]) -> Result<List<Name>, Memory>
    ensures { IfOk result (λ copies. copies ≡ names.now) }
{
    Ok(List::from_vec(names.to_vec(alloc)?))
}

// The privileges in the order of their numbers, each once.
fn in_code_order(alloc: Global, used: &[Privilege]) -> Result<List<Privilege>, Memory>
    ensures { IfOk result (λ ordered. ordered ≡ in_code_order used.now) }
{
    Ok(List::from_vec(those_used(alloc, used)?))
}

fn those_used(alloc: Global, used: &[Privilege]) -> Result<Vec<Privilege>, Memory>
    ensures { IfOk result (λ ordered. ordered.items ≡ in_code_order used.now) }
{
    let ordered = Privilege::EACH
        .iter()
        .copied()
        .filter(|privilege| is_used(used, *privilege))
        .collect(alloc)?;
    Ok(ordered)
}

fn is_used(used: &[Privilege], privilege: Privilege) -> bool
    ensures { result ≡ list_any (same_privilege privilege) used.now }
{
    used.iter()
        .any(|other| is_same_privilege(privilege, *other))
}
