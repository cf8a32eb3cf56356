//! What the pairs of a statement change, or which of them is refused.
ghost use Rattle.std.specs.Prelude.{◌≡◌, IfOk};
ghost use Rattle.au_priv.specs.Pairs.{object_pair, pairs, right_pair};
ghost use Rattle.au_priv.specs.descent.Judging.{Judged, changes_in};

use crate::pair::Way;
use crate::progress::Progress;
use crate::walking::{walk_object_rights, walk_rights};
use au_base::{Code, List, Memory, Name, ObjectRight, Right, TableName};
use au_grants::{GrantChange, Grants};
use std::alloc::Global;

/// Judges the pairs of rights and grantees in their order, beginning with the grants that are lent.
pub fn judge_rights(
    alloc: Global,
    grants: &Grants,
    way: Way,
    rights: &[Right],
    grantees: &[Name],
) -> Result<Result<List<GrantChange>, Code>, Memory>
    ensures { IfOk result (Judged grants.now (pairs (right_pair way) rights.now grantees.now)) }
{
    let start = Progress::new(alloc, grants);
    let walked = walk_rights(alloc, start, way, rights, grantees)?;
    Ok(changes_in(walked))
}

/// Judges the pairs of rights on a table and grantees in their order, beginning with the grants that
/// are lent.
pub fn judge_object_rights(
    alloc: Global,
    grants: &Grants,
    way: Way,
    table: &TableName,
    rights: &[ObjectRight],
    grantees: &[Name],
) -> Result<Result<List<GrantChange>, Code>, Memory>
    ensures { IfOk result (Judged grants.now (pairs (object_pair way table.now) rights.now grantees.now)) }
{
    let start = Progress::new(alloc, grants);
    let walked = walk_object_rights(alloc, start, way, table, rights, grantees)?;
    Ok(changes_in(walked))
}

fn changes_in(walked: Result<Progress<'_>, Code>) -> Result<List<GrantChange>, Code>
    ensures { result ≡ changes_in walked.entry }
{
    match walked {
        Ok(end) => Ok(end.into_changes()),
        Err(code) => Err(code),
    }
}
