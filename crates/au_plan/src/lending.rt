//! The touched rows that fine-grained policies ask for, lent by the desk or by changes.
ghost use Rattle.std.specs.Prelude.{◌≡◌, IfOk, flat_map, map};
ghost use Rattle.std.specs.Option.{option_copied};
ghost use Rattle.au_fga.specs.Testing.{seen_rows};
ghost use Rattle.au_plan.specs.Inside as spec;
ghost use Rattle.au_plan.specs.Inside.{asked_entry, cells_lent, contents_of_rows};
ghost use Rattle.au_plan.specs.Plans.{contents_in};

use crate::watching::is_watched;
use au_base::{Action, Cell, ClientNo, List, Memory, RowNo, TableName};
use au_entries::FgaPolicy;
use au_txn::{Desk, RowChange, laid_rows_answer, rows_stand_by_tables};
use std::alloc::Global;

/// Of each table, the rows with these numbers as the client sees them, where one of the policies is
/// enabled for SELECT on the table; else no row. A row is looked up once, and none of its cells is
/// copied.
pub fn touched_rows<'a>(
    alloc: Global,
    policies: &[FgaPolicy],
    desk: &'a Desk,
    client: ClientNo,
    touched: &[(TableName, List<RowNo>)],
) -> Result<List<(TableName, List<&'a [Cell]>)>, Memory>
    ensures { IfOk result (λ lent. map seen_rows lent ≡ map (asked_entry policies.now desk.now client) touched.now) }
{
    let mut lent = List::new(alloc);
    for (table, numbers) in touched {
        lent.push(table_rows(alloc, policies, desk, client, table, numbers.as_slice())?)?;
    }
    Ok(lent)
}

fn table_rows<'a>(
    alloc: Global,
    policies: &[FgaPolicy],
    desk: &'a Desk,
    client: ClientNo,
    table: &TableName,
    numbers: &[RowNo],
) -> Result<(TableName, List<&'a [Cell]>), Memory>
    ensures { IfOk result (λ lent. seen_rows lent ≡ asked_entry policies.now desk.now client (table.now, numbers.now)) }
{
    let rows = asked_rows(alloc, policies, desk, client, table, numbers)?;
    Ok((table.clone()?, rows))
}

fn asked_rows<'a>(
    alloc: Global,
    policies: &[FgaPolicy],
    desk: &'a Desk,
    client: ClientNo,
    table: &TableName,
    numbers: &[RowNo],
) -> Result<List<&'a [Cell]>, Memory>
    ensures { IfOk result (λ rows. cells_lent rows ≡ spec.asked_rows policies.now desk.now client table.now numbers.now) }
{
    if is_watched(policies, Action::Select, table) {
        let rows = rows_at(alloc, desk, client, table, numbers)?;
        return Ok(rows);
    }
    Ok(List::new(alloc))
}

fn rows_at<'a>(
    alloc: Global,
    desk: &'a Desk,
    client: ClientNo,
    table: &TableName,
    numbers: &[RowNo],
) -> Result<List<&'a [Cell]>, Memory>
    ensures { IfOk result (λ rows. cells_lent rows ≡ contents_of_rows desk.now client table.now numbers.now) }
{
    let mut rows = List::new(alloc);
    for number in numbers {
        if let Some(cells) = row_at(desk, client, table, *number) {
            rows.push(cells)?;
        }
    }
    Ok(rows)
}

// What the client sees of the row. No row has the number 0.
fn row_at<'a>(
    desk: &'a Desk,
    client: ClientNo,
    table: &TableName,
    number: RowNo,
) -> Option<&'a [Cell]>
    ensures { option_copied result ≡ spec.content_of desk.now client table.now number }
{
    if number.0 == 0 {
        desk.holds_together();
        laid_rows_answer();
        rows_stand_by_tables();
        return None;
    }
    desk.seen(client, table, number)
}

/// The contents of rows before and after each of the changes, where there are such, in their order.
/// None of their cells is copied.
pub fn contents_of<'a>(alloc: Global, changes: &'a [RowChange]) -> Result<List<&'a [Cell]>, Memory>
    ensures { IfOk result (λ rows. cells_lent rows ≡ flat_map contents_in changes.now) }
{
    let mut rows = List::new(alloc);
    for change in changes {
        if let Some(cells) = &change.old {
            rows.push(cells.as_slice())?;
        }
        if let Some(cells) = &change.new {
            rows.push(cells.as_slice())?;
        }
    }
    Ok(rows)
}
