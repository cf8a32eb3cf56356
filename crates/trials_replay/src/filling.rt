//! Changes that are made many times.
ghost use Rattle.au_catalog.specs.Staging.{IsOrdered};

use crate::asking::goes;
use crate::changes::change;
use crate::field;
use crate::grants::grant_change;
use crate::making::make_all;
use crate::world::{World, sight};
use au_entries::Change;
use au_grants::{GrantChange, GrantDraft, Grants};
use std::alloc::Global;
use trials_lines::{Fault, number};

/// Makes the line's change so many times, in one list, and says how many went on.
pub fn filled(alloc: Global, world: &mut World, line: &str) -> Result<String, Fault>
    requires { IsOrdered world.old.catalog }
    ensures { IsOrdered world.new.catalog }
{
    let mut changes = Vec::new(alloc);
    fill(alloc, world, &mut changes, line)
}

fn fill(
    alloc: Global,
    world: &mut World,
    changes: &mut Vec<Change>,
    line: &str,
) -> Result<String, Fault>
    requires { IsOrdered world.old.catalog }
    ensures { IsOrdered world.new.catalog }
{
    list_many(alloc, changes, &*world, line)?;
    make_all(alloc, world, changes.as_slice())?;
    Ok(format!(in alloc; "{}", changes.len())?)
}

// Lists the line's change so many times, where it goes on.
fn list_many(
    alloc: Global,
    changes: &mut Vec<Change>,
    world: &World,
    line: &str,
) -> Result<(), Fault>
    requires { IsOrdered world.now.catalog }
{
    for place in 0..number(field(line, 1))? {
        let numbered = numbered(alloc, line, place)?;
        list(alloc, changes, world, numbered.as_str())?;
    }
    Ok(())
}

fn list(alloc: Global, changes: &mut Vec<Change>, world: &World, line: &str) -> Result<(), Fault>
    requires { IsOrdered world.now.catalog }
{
    if goes(alloc, &sight(world), false, line)? {
        push_change(changes, change(alloc, line)?)?;
    }
    Ok(())
}

fn push_change(changes: &mut Vec<Change>, change: Change) -> Result<(), Fault> {
    changes.push(change)?;
    Ok(())
}

/// A draft of the grants in which the line's grant was made so many times.
pub fn with_many(alloc: Global, grants: &Grants, line: &str) -> Result<GrantDraft, Fault> {
    let mut changes = Vec::new(alloc);
    for place in 0..number(field(line, 1))? {
        push_grant(alloc, &mut changes, numbered(alloc, line, place)?.as_str())?;
    }
    Ok(GrantDraft::of(grants.clone()?).after(&changes)?)
}

fn push_grant(alloc: Global, changes: &mut Vec<GrantChange>, line: &str) -> Result<(), Fault> {
    push_some(changes, granted(alloc, line)?)
}

fn granted(alloc: Global, line: &str) -> Result<Option<GrantChange>, Fault> {
    let made = change(alloc, line)?;
    grant_change(&made)
}

fn push_some(changes: &mut Vec<GrantChange>, granted: Option<GrantChange>) -> Result<(), Fault> {
    match granted {
        Some(granted) => {
            changes.push(granted)?;
            Ok(())
        }
        None => Err(Fault::NoCase),
    }
}

// The line's change, with the number of the place where its `#` stands.
fn numbered(alloc: Global, line: &str, place: u64) -> Result<String, Fault> {
    let number = place.saturating_add(100_000);
    let (front, rest) = line.split_once('#').ok_or(Fault::NoCase)?;
    let (_, front) = front.split_once('|').ok_or(Fault::NoCase)?;
    let (_, front) = front.split_once('|').ok_or(Fault::NoCase)?;
    Ok(format!(in alloc; "{front}{number}{rest}")?)
}
