//! The tables of FROM, which may stand there several times.
ghost use Rattle.std.specs.Prelude.{◌≡◌, ◌≤◌, IfOk, length, not, take};
ghost use Rattle.std.specs.List.{list_any};
ghost use Rattle.au_base.specs.Sameness.{same_table};
ghost use Rattle.au_query.specs.Answers.{places_of};

use crate::Source;
use au_base::{Memory, TableName, is_same_table};
use std::alloc::Global;

/// Whether the table stands at no place of FROM before this one.
pub fn is_first(sources: &[Source<'_>], place: usize, table: &TableName) -> bool
    requires { place ≤ length sources.now }
    ensures { result ≡ not (list_any (λ earlier. same_table earlier.table table.now) (take place sources.now)) }
{
    !is_listed(&sources[..place], table)
}

// Whether the table is one of the sources.
fn is_listed(sources: &[Source<'_>], table: &TableName) -> bool
    ensures { result ≡ list_any (λ source. same_table source.table table.now) sources.now }
{
    for source in sources {
        if is_same_table(&source.table, table) {
            return true;
        }
    }
    false
}

/// The places of FROM, from 0, at which the table stands.
pub fn places(
    alloc: Global,
    sources: &[Source<'_>],
    table: &TableName,
) -> Result<Vec<usize>, Memory>
    ensures { IfOk result (λ places. places.items ≡ places_of table.now sources.now) }
{
    let mut places = Vec::new(alloc);
    for (place, source) in sources.iter().enumerate() {
        if is_same_table(&source.table, table) {
            places.push(place)?;
        }
    }
    Ok(places)
}
