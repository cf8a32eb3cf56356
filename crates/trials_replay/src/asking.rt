//! Lines that ask.
ghost use Rattle.au_catalog.specs.Staging.{IsOrdered};
ghost use Rattle.au_replay.specs.Sights.{IsSorted};

use crate::changes::change;
use crate::filling::with_many;
use crate::trees::has_short_text;
use crate::world::{World, sight, sight_with};
use crate::{behind, field, shapes};
use au_base::Stamp;
use au_entries::Change;
use au_grants::GrantDraft;
use au_replay::{GrantsSeen, Sight, are_few, goes_on, has_sys, is_from_last};
use std::alloc::Global;
use trials_lines::{Fault, number, yes_or_no};

/// What comes of a line that asks.
pub fn asked(alloc: Global, world: &World, line: &str) -> Result<String, Fault>
    requires { IsOrdered world.now.catalog }
{
    match field(line, 0) {
        "ask" => yes_or_no(alloc, goes(alloc, &sight(world), false, behind(line))?),
        "image" => yes_or_no(alloc, goes(alloc, &sight(world), true, behind(line))?),
        "draft" => yes_or_no(alloc, goes_by_draft(alloc, world, behind(line))?),
        "sys" => yes_or_no(alloc, has_sys(&sight(world))),
        "few" => yes_or_no(alloc, few(alloc, world, line)?),
        "stamp" => yes_or_no(alloc, is_next(line)?),
        _ => shapes::asked(alloc, line),
    }
}

/// Whether the change of the line goes on from what the sight shows.
pub fn goes(alloc: Global, sight: &Sight<'_>, image: bool, line: &str) -> Result<bool, Fault>
    requires { IsSorted sight.now }
{
    let asked = change(alloc, line)?;
    goes_from(alloc, sight, image, &asked)
}

/// Whether the change goes on from what the sight shows.
pub fn goes_from(
    alloc: Global,
    sight: &Sight<'_>,
    image: bool,
    change: &Change,
) -> Result<bool, Fault>
    requires { IsSorted sight.now }
{
    if !has_short_text(change) {
        return Err(Fault::NoCase);
    }
    Ok(goes_on(alloc, sight, image, change)?)
}

fn goes_by_draft(alloc: Global, world: &World, line: &str) -> Result<bool, Fault>
    requires { IsOrdered world.now.catalog }
{
    let draft = GrantDraft::of(world.grants.clone()?);
    goes(
        alloc,
        &sight_with(world, GrantsSeen::Draft(&draft)),
        false,
        line,
    )
}

fn few(alloc: Global, world: &World, line: &str) -> Result<bool, Fault>
    requires { IsOrdered world.now.catalog }
{
    if behind(line).is_empty() {
        return Ok(are_few(&sight(world)));
    }
    let draft = with_many(alloc, &world.grants, line)?;
    Ok(are_few(&sight_with(world, GrantsSeen::Draft(&draft))))
}

fn is_next(line: &str) -> Result<bool, Fault> {
    let (last, stamp) = (number(field(line, 1))?, number(field(line, 2))?);
    Ok(is_from_last(Stamp(last), Stamp(stamp)))
}
