//! Replies of queries.
ghost use Rattle.std.specs.Prelude.{◌≡◌, ◌++◌, IfOk, map};
ghost use Rattle.std.specs.List.{enumerate_from, flat_map};
ghost use Rattle.std.specs.Option.{option_copied};
ghost use Rattle.au_query.specs.Combos.{cells_at};
ghost use Rattle.au_query.specs.descent.Outputs.{trees_in};
ghost use Rattle.au_query.specs.Queries as spec;

use crate::combo::Combo;
use crate::output::{Output, cells};
use au_base::{Cell, Column, List, Memory, Name, Text};
use au_expr::SessionFacts;
use sql_ast::{Expr, Item, Items};
use std::alloc::Global;

/// What the outputs give over each combination, in order.
pub fn rows(
    alloc: Global,
    outputs: &[Output],
    session: &SessionFacts,
    combos: &[Combo<'_>],
) -> Result<List<List<Cell>>, Memory>
    ensures { IfOk result (λ rows. rows ≡ map (cells_at session.now (trees_in outputs.now)) combos.now) }
{
    let mut rows = List::new(alloc);
    for combo in combos {
        rows.push(cells_of(alloc, outputs, session, combo)?)?;
    }
    Ok(rows)
}

fn cells_of(
    alloc: Global,
    outputs: &[Output],
    session: &SessionFacts,
    combo: &Combo<'_>,
) -> Result<List<Cell>, Memory>
    ensures { IfOk result (λ cells. cells ≡ cells_at session.now (trees_in outputs.now) combo.now) }
{
    let row = combo.row();
    let cells = cells(alloc, outputs, session, &row)?;
    Ok(cells)
}

/// The names of a reply's columns.
pub fn column_names(
    alloc: Global,
    items: &Items,
    ranges: &[(Name, List<Column>)],
) -> Result<List<Text>, Memory>
    ensures { IfOk result (λ names. names ≡ spec.column_names ranges.now items.now) }
{
    match items {
        Items::All => {
            let names = all_names(alloc, ranges)?;
            Ok(names)
        }
        Items::Listed(items) => {
            let names = listed_names(alloc, items.as_slice())?;
            Ok(names)
        }
    }
}

fn all_names(alloc: Global, ranges: &[(Name, List<Column>)]) -> Result<List<Text>, Memory>
    ensures { IfOk result (λ names. names ≡ flat_map spec.names_of_range ranges.now) }
{
    let mut names = List::new(alloc);
    for (_, columns) in ranges {
        add_names(&mut names, columns.as_slice())?;
    }
    Ok(names)
}

fn add_names(names: &mut List<Text>, columns: &[Column]) -> Result<(), Memory>
    ensures { IfOk result (λ done. names.new ≡ names.old ++ spec.names_of_columns columns.now) }
{
    for column in columns {
        names.push(column.name.as_text().clone()?)?;
    }
    Ok(())
}

fn listed_names(alloc: Global, items: &[Item]) -> Result<List<Text>, Memory>
    ensures { IfOk result (λ names. names ≡ map spec.item_name (enumerate_from 1 items.now)) }
{
    let mut names = List::new(alloc);
    for (number, item) in items.iter().enumerate() {
        names.push(item_name(alloc, number + 1, item)?)?;
    }
    Ok(names)
}

fn item_name(alloc: Global, place: usize, item: &Item) -> Result<Text, Memory>
    ensures { IfOk result (λ name. name ≡ spec.item_name (place, item.now)) }
{
    match &item.alias {
        Some(alias) => Ok(alias.as_text().clone()?),
        None => {
            let name = value_name(alloc, place, &item.value)?;
            Ok(name)
        }
    }
}

fn value_name(alloc: Global, place: usize, value: &Expr) -> Result<Text, Memory>
    ensures { IfOk result (λ name. name ≡ spec.name_or (spec.numbered_name place) (spec.column_name value.now)) }
{
    match bare_name(value) {
        Some(name) => Ok(name.as_text().clone()?),
        None => {
            let name = Text::from_string(format!(in alloc; "C{place}")?);
            Ok(name)
        }
    }
}

fn bare_name(value: &Expr) -> Option<&Name>
    ensures { option_copied result ≡ spec.column_name value.now }
{
    match value {
        Expr::Column(_, name) => Some(name),
        _ => None,
    }
}
