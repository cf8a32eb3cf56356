//! Whether an expression overflows over some combination.
ghost use Rattle.std.specs.Prelude.{◌≡◌, ◌≤◌, ◌+◌, ◌++◌, ◌∷◌, [], IfSome, List, length, take};
ghost use Rattle.std.specs.List.{list_any};
ghost use Rattle.au_base.specs.Limits as limits;
ghost use Rattle.au_query.specs.Combos.{AreSoundRows, overflows_over, product, views};
ghost use Rattle.au_expr.specs.Sessions.{Session};
ghost use Rattle.au_expr.specs.Values.{is_overflow};
ghost use Rattle.au_query.specs.descent.Inside.{cell_views, cells_in, found_in, names_in, overflows_in};
ghost use Rattle.au_query.specs.descent.Residuals.{overflows_behind, residual_value};

use crate::Source;
use crate::residual::{Residual, residual_of};
use crate::size::has_empty_table;
use au_base::{Cell, RowNo};
use au_expr::{
    Placed, Resolved, Row, SessionFacts, named_ranges_suffice, no_overflow_where_none_can,
    overflows_at,
};

/// Whether an expression overflows over some combination. Only the rows of tables that it names are
/// gone through, and none where it can't overflow or a table has no row. It takes no memory.
pub fn overflows_somewhere(expr: &Resolved, session: &SessionFacts, sources: &[Source<'_>]) -> bool
    requires few { length sources.now ≤ limits.FROM_TABLES }
    requires sound { AreSoundRows (views sources.now) }
    ensures { result ≡ list_any (overflows_over session.now expr.now) (product (views sources.now)) }
{
    named_ranges_suffice();
    no_overflow_where_none_can();
    if !expr.can_overflow() {
        return false;
    }
    if has_empty_table(sources) {
        return false;
    }
    let mut row = Row::new();
    search(expr, session, sources, &mut row)
}

#[tactic(auto, using(crate::proofs::Fronts::popped))]
fn search<'a>(
    expr: &Resolved,
    session: &SessionFacts,
    sources: &[Source<'a>],
    row: &mut Row<'a>,
) -> bool
    requires few { length row.old + length sources.now ≤ limits.FROM_TABLES }
    ensures found { result ≡ found_in (overflows_in session.now expr.now) (names_in expr.now) row.old (cell_views sources.now) }
    ensures row { row.new ≡ row.old }
{
    match sources.split_first() {
        None => overflows_here(expr, row, session),
        Some((source, rest)) => {
            let rows = if expr.names_range(row.len()) {
                source.rows.as_slice()
            } else {
                first_of(source.rows.as_slice())
            };
            if let Some(found) = found_at_last(expr, row, rest, rows) {
                return found;
            }
            for (_, cells) in rows {
                row.push(*cells);
                let found = search(expr, session, rest, row);
                row.pop();
                if found {
                    return true;
                }
            }
            false
        }
    }
}

// Whether the expression overflows over the rows given and one of these of the last table. `None`
// where there are tables behind it, or where nothing is left of the expression or of one of the
// conditions that AND joins in it.
fn found_at_last(
    expr: &Resolved,
    row: &Row<'_>,
    rest: &[Source<'_>],
    rows: &[(RowNo, &[Cell])],
) -> Option<bool>
    ensures { IfSome result (λ found. (session : Session)
        → found ≡ list_any (λ cells. found_in (overflows_in session expr.now) (names_in expr.now) (row.now ++ cells ∷ []) (cell_views rest.now)) (cells_in rows.now)) }
{
    match rest.split_first() {
        None => told_by_residuals(expr.tree(), row, rows),
        Some(_) => None,
    }
}

fn told_by_residuals(tree: &Placed, row: &Row<'_>, rows: &[(RowNo, &[Cell])]) -> Option<bool>
    ensures { IfSome result (λ found. (session : Session) → found ≡ overflows_behind session row.now (cells_in rows.now) tree.now) }
{
    match tree {
        Placed::And(parts) => told_of_parts(parts.as_slice(), row, rows),
        _ => told_of_one(tree, row, rows),
    }
}

// Whether one of the parts overflows over one of the rows. What is left of each part is made twice:
// none of the rows is gone through before each part is known to leave something, and a list of what is
// left would take memory.
fn told_of_parts(parts: &[Placed], row: &Row<'_>, rows: &[(RowNo, &[Cell])]) -> Option<bool>
    ensures { IfSome result (λ found. (session : Session) → found ≡ list_any (overflows_behind session row.now (cells_in rows.now)) parts.now) }
{
    for tree in parts {
        residual_of(tree, row)?;
    }
    for part in parts {
        let found = told_of_one(part, row, rows)?;
        if found {
            return Some(true);
        }
    }
    Some(false)
}

fn told_of_one(tree: &Placed, row: &Row<'_>, rows: &[(RowNo, &[Cell])]) -> Option<bool>
    ensures { IfSome result (λ found. (session : Session) → found ≡ overflows_behind session row.now (cells_in rows.now) tree.now) }
{
    match residual_of(tree, row) {
        Some(residual) => Some(one_overflows(residual, rows)),
        None => None,
    }
}

fn one_overflows(residual: Residual, rows: &[(RowNo, &[Cell])]) -> bool
    ensures { result ≡ list_any (λ cells. is_overflow (residual_value residual cells)) (cells_in rows.now) }
{
    for (_, cells) in rows {
        if residual.overflows(*cells) {
            return true;
        }
    }
    false
}

fn overflows_here(expr: &Resolved, row: &Row<'_>, session: &SessionFacts) -> bool
    ensures { result ≡ overflows_in session.now expr.now row.now }
{
    overflows_at(expr.tree(), row, session)
}

fn first_of<'b, 'a>(rows: &'b [(RowNo, &'a [Cell])]) -> &'b [(RowNo, &'a [Cell])]
    ensures { cells_in result.now ≡ take 1 (cells_in rows.now) }
{
    if rows.is_empty() { rows } else { &rows[..1] }
}
