//! The keys that an UPDATE makes.
ghost use Rattle.std.specs.Prelude.{◌≡◌, ◌↔◌, IfOk, IsTrue};
ghost use Rattle.au_change.specs.Behind.{IsAsked, IsKeyRefusal, IsLockedChange, sight_in};
ghost use Rattle.au_base.specs.Codes.{KEY_PRESENT};
ghost use Rattle.au_change.specs.Updating.{updates};
ghost use Rattle.au_modify.specs.Keys as keys;
ghost use Rattle.au_modify.specs.Keys.{IsSomeKeyLocked};
ghost use Rattle.au_query.specs.Refusals.{where_broken};

use crate::clashes::are_two_under_one;
use crate::updating::Asked;
use au_base::{Code, Memory, same_is_equal};
use au_modify::{is_locked_at, key_in};
use au_txn::{RowChange, rows_are_what_they_answer};
use std::alloc::Global;

/// What the keys that the changes make refuse: 54, and else 1.
pub(crate) fn key_refusal(
    alloc: Global,
    asked: &Asked<'_>,
    changes: &[RowChange],
) -> Result<Option<Code>, Memory>
    requires asked { IsAsked asked.now }
    requires changes { changes.now ≡ updates (sight_in asked.now) asked.now.session.now asked.now.table.now asked.now.update.now }
    ensures { IfOk result (IsKeyRefusal asked.now) }
{
    same_is_equal();
    rows_are_what_they_answer();
    asked.world.desk.holds_together();
    let places = key_in(asked.world.catalog.tables.as_slice(), asked.table);
    if places.is_empty() {
        return Ok(None);
    }
    if is_some_locked(alloc, asked, places, changes)? {
        return Ok(Some(Code::LOCKED));
    }
    let two = are_two_under_one(
        alloc,
        asked.world.desk,
        asked.client,
        asked.table,
        places,
        changes,
    )?;
    Ok(code_where(two))
}

fn code_where(two: bool) -> Option<Code>
    ensures { result ≡ where_broken two KEY_PRESENT }
{
    if two { Some(Code::KEY_PRESENT) } else { None }
}

fn is_some_locked(
    alloc: Global,
    asked: &Asked<'_>,
    places: &[u32],
    changes: &[RowChange],
) -> Result<bool, Memory>
    requires asked { IsAsked asked.now }
    requires places { places.now ≡ keys.key_in asked.now.world.catalog.now.tables asked.now.table.now }
    ensures { IfOk result (λ locked. IsTrue locked ↔ IsSomeKeyLocked (sight_in asked.now) asked.now.client asked.now.table.now changes.now) }
{
    for change in changes {
        if is_locked(alloc, asked, places, change)? {
            return Ok(true);
        }
    }
    Ok(false)
}

fn is_locked(
    alloc: Global,
    asked: &Asked<'_>,
    places: &[u32],
    change: &RowChange,
) -> Result<bool, Memory>
    requires asked { IsAsked asked.now }
    requires places { places.now ≡ keys.key_in asked.now.world.catalog.now.tables asked.now.table.now }
    ensures { IfOk result (λ locked. IsTrue locked ↔ IsLockedChange asked.now change.now) }
{
    match &change.new {
        Some(cells) => is_locked_at(
            alloc,
            &asked.world,
            asked.client,
            asked.table,
            places,
            cells.as_slice(),
        ),
        None => Ok(false),
    }
}
