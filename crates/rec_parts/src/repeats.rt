//! Lists without repeats.
ghost use Rattle.std.specs.Prelude.{◌≡◌, IfOk, map};
ghost use Rattle.std.specs.Str.{bytes_eq};
ghost use Rattle.rec_parts.specs.Spelling.{is_without_repeats};
ghost use Rattle.rec_parts.specs.Parts.{same_part};

use au_base::{Action, Memory, Name, TableName};
use au_entries::Outcomes;
use std::alloc::Global;
use std::collections::BTreeSet;

/// Whether no two of the values are the same.
pub(crate) fn is_without_repeats<T: Ord>(alloc: Global, values: &[T]) -> Result<bool, Memory>
    ensures { IfOk result (λ answer. answer ≡ is_without_repeats T.eq values.now) }
{
    let distinct: BTreeSet<&T> = values.iter().collect(alloc)?;
    Ok(distinct.len() == values.len())
}

/// Whether no two of the users have the same name.
pub fn names_each_once(alloc: Global, users: &[(Name, Outcomes)]) -> Result<bool, Memory>
    ensures { IfOk result (λ answer. answer ≡ is_without_repeats bytes_eq (map (λ user. user.0) users.now)) }
{
    let distinct: BTreeSet<&Name> = users.iter().map(|user| &user.0).collect(alloc)?;
    Ok(distinct.len() == users.len())
}

/// Whether no two of the parts are the same.
pub fn parts_each_once(
    alloc: Global,
    values: &[(Action, Option<TableName>)],
) -> Result<bool, Memory>
    ensures { IfOk result (λ answer. answer ≡ is_without_repeats same_part values.now) }
{
    is_without_repeats(alloc, values)
}
