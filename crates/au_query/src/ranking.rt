//! The order of the rows of a query.
ghost use Rattle.std.specs.Prelude.{◌≡◌, ◌≤◌, OnOk};
ghost use Rattle.std.specs.Option.{option_copied};
ghost use Rattle.au_expr.specs.Placing as placing;
ghost use Rattle.au_expr.specs.Placing.{cell_or_null};
ghost use Rattle.au_query.specs.Combos.{cells_of};
ghost use Rattle.au_query.specs.Ordering as spec;
ghost use Rattle.au_query.specs.Ordering.{IsOrdered, combo_cmp, key_cmp};

use crate::combo::Combo;
use au_base::{Cell, Memory};
use au_expr::Place;
use std::cmp::Ordering;

/// Brings the combinations in the order of the keys, each the place of a column and whether it is
/// descending. Those that tie keep their order.
pub fn put_in_order(combos: &mut Vec<Combo<'_>>, keys: &[(Place, bool)]) -> Result<(), Memory>
    ensures { OnOk result (IsOrdered keys.now combos.old.items combos.new.items) }
{
    combos.sort_by(|a, b| compare(keys, a, b))?;
    Ok(())
}

fn compare(keys: &[(Place, bool)], a: &Combo<'_>, b: &Combo<'_>) -> Ordering
    ensures { result ≡ combo_cmp keys.now a.now b.now }
{
    for (place, descending) in keys {
        let order = compare_at(*place, *descending, a, b);
        if order != Ordering::Equal {
            return order;
        }
    }
    Ordering::Equal
}

fn compare_at(place: Place, descending: bool, a: &Combo<'_>, b: &Combo<'_>) -> Ordering
    ensures { result ≡ key_cmp (place, descending) (cells_of a.now) (cells_of b.now) }
{
    let a = cell_at(a, place);
    let b = cell_at(b, place);
    if descending {
        compare_cells(b, a)
    } else {
        compare_cells(a, b)
    }
}

fn cell_at<'a>(combo: &Combo<'a>, place: Place) -> Option<&'a Cell>
    ensures { cell_or_null (option_copied result) ≡ placing.cell_at (cells_of combo.now) place }
{
    match combo.get(place.range) {
        Some((_, cells)) => cells.get(place.column),
        None => None,
    }
}

// Nothing is NULL, which comes last.
fn compare_cells(a: Option<&Cell>, b: Option<&Cell>) -> Ordering
    ensures { result ≡ spec.cell_cmp (cell_or_null (option_copied a.entry)) (cell_or_null (option_copied b.entry)) }
{
    kind_of(a)
        .cmp(&kind_of(b))
        .then(number_of(a).cmp(&number_of(b)))
        .then(text_of(a).cmp(text_of(b)))
        .then(moment_of(a).cmp(&moment_of(b)))
}

fn kind_of(cell: Option<&Cell>) -> u8
    ensures { result ≡ spec.kind_of_cell (cell_or_null (option_copied cell.entry)) }
{
    match cell {
        Some(Cell::Num(_)) => 0,
        Some(Cell::Text(_)) => 1,
        Some(Cell::Moment(_)) => 2,
        _ => 3,
    }
}

fn number_of(cell: Option<&Cell>) -> i64
    ensures { result ≡ spec.number_in (cell_or_null (option_copied cell.entry)) }
{
    match cell {
        Some(Cell::Num(number)) => *number,
        _ => 0,
    }
}

fn text_of(cell: Option<&Cell>) -> &[u8]
    ensures { result.now ≡ spec.text_in (cell_or_null (option_copied cell.entry)) }
{
    match cell {
        Some(Cell::Text(text)) => text.as_bytes(),
        _ => &[],
    }
}

fn moment_of(cell: Option<&Cell>) -> u64
    ensures { result ≡ spec.moment_in (cell_or_null (option_copied cell.entry)) }
{
    match cell {
        Some(Cell::Moment(moment)) => *moment,
        _ => 0,
    }
}
