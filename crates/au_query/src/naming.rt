//! The columns that a query names.
ghost use Rattle.std.specs.Prelude.{◌≡◌, ℕ, IfOk, filter, map};
ghost use Rattle.std.specs.List.{enumerate_from, list_any, slice_get};
ghost use Rattle.au_base.specs.declared.table.Column.{Column as Of};
ghost use Rattle.au_expr.specs.Ranges.{names_column};
ghost use Rattle.au_query.specs.Answers as spec;
ghost use Rattle.au_query.specs.Answers.{columns_at, named_by, places_of};
ghost use Rattle.au_query.specs.descent.Outputs.{trees_in};
ghost use Rattle.au_query.specs.descent.Plans.{keys_trees, trees_in_plan};

use crate::Source;
use crate::output::Output;
use crate::planning::Plan;
use crate::tables::{is_first, places};
use au_base::{Column, List, Memory, Name, TableName};
use au_expr::{Place, Resolved};
use std::alloc::Global;

/// Of each table of FROM, the columns that the query names in any place, in their order.
pub fn named(
    alloc: Global,
    plan: &Plan,
    ranges: &[(Name, List<Column>)],
    sources: &[Source<'_>],
) -> Result<List<(TableName, List<Name>)>, Memory>
    ensures { IfOk result (λ named. named ≡ named_by (trees_in_plan plan.now) ranges.now sources.now) }
{
    let mut named = List::new(alloc);
    for (range, source) in sources.iter().enumerate() {
        if is_first(sources, range, &source.table) {
            let columns = columns_of(ranges, range);
            named.push(named_table(alloc, plan, columns, sources, source)?)?;
        }
    }
    Ok(named)
}

// The table, and those of its columns that the query names, at whatever places of FROM.
fn named_table(
    alloc: Global,
    plan: &Plan,
    columns: &[Column],
    sources: &[Source<'_>],
    source: &Source<'_>,
) -> Result<(TableName, List<Name>), Memory>
    ensures { IfOk result (λ named. named ≡ (source.now.table, map (λ (column : ℕ × Of). column.1.name) (filter (spec.is_named (trees_in_plan plan.now) (places_of source.now.table sources.now)) (enumerate_from 0 columns.now)))) }
{
    let places = places(alloc, sources, &source.table)?;
    let names = named_columns(alloc, plan, &places, columns)?;
    Ok((source.table.clone()?, names))
}

fn columns_of(ranges: &[(Name, List<Column>)], range: usize) -> &[Column]
    ensures { result.now ≡ columns_at (slice_get ranges.now range) }
{
    match ranges.get(range) {
        Some((_, columns)) => columns.as_slice(),
        None => &[],
    }
}

fn named_columns(
    alloc: Global,
    plan: &Plan,
    places: &[usize],
    columns: &[Column],
) -> Result<List<Name>, Memory>
    ensures { IfOk result (λ names. names ≡ map (λ (column : ℕ × Of). column.1.name) (filter (spec.is_named (trees_in_plan plan.now) places.now) (enumerate_from 0 columns.now))) }
{
    let mut names = List::new(alloc);
    for (number, column) in columns.iter().enumerate() {
        if is_named(plan, places, number) {
            names.push(column.name.clone()?)?;
        }
    }
    Ok(names)
}

// Whether the query names the column at one of the places.
fn is_named(plan: &Plan, places: &[usize], column: usize) -> bool
    ensures { result ≡ list_any (λ place. list_any (names_column place column) (trees_in_plan plan.now)) places.now }
{
    for place in places {
        if is_named_at(plan, *place, column) {
            return true;
        }
    }
    false
}

fn is_named_at(plan: &Plan, range: usize, column: usize) -> bool
    ensures { result ≡ list_any (names_column range column) (trees_in_plan plan.now) }
{
    is_in_conditions(plan.conditions.as_slice(), range, column)
        || is_in_outputs(plan.outputs.as_slice(), range, column)
        || is_in_keys(plan.keys.as_slice(), range, column)
}

fn is_in_conditions(conditions: &[Resolved], range: usize, column: usize) -> bool
    ensures { result ≡ list_any (names_column range column) conditions.now }
{
    for condition in conditions {
        if condition.names_column(range, column) {
            return true;
        }
    }
    false
}

fn is_in_outputs(outputs: &[Output], range: usize, column: usize) -> bool
    ensures { result ≡ list_any (names_column range column) (trees_in outputs.now) }
{
    for output in outputs {
        if output.names_column(range, column) {
            return true;
        }
    }
    false
}

fn is_in_keys(keys: &[(Place, bool)], range: usize, column: usize) -> bool
    ensures { result ≡ list_any (names_column range column) (keys_trees keys.now) }
{
    for (place, _) in keys {
        if is_column(*place, range, column) {
            return true;
        }
    }
    false
}

#[tactic(auto, using(crate::proofs::Columns::column_names))]
fn is_column(place: Place, range: usize, column: usize) -> bool
    ensures { result ≡ names_column range column (spec.column_tree place) }
{
    place.range == range && place.column == column
}
