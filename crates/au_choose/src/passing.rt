//! The rows over which WHERE is Yes, so long as it overflows over none.
ghost use Rattle.std.specs.Prelude.{◌≡◌, ◌∷◌, [], false, true, IfOk, MatchOption, None};
ghost use Rattle.std.specs.Option.{option_to_list};
ghost use Rattle.au_choose.specs.Choosing.{conditions_over, where_kind};
ghost use Rattle.au_choose.specs.Inside.{met_by, over_cells};
ghost use Rattle.au_expr.specs.Placing.{value_at};
ghost use Rattle.au_expr.specs.Values.{Holds, is_met};
ghost use Rattle.au_query.specs.Combos.{lines, overflows};
ghost use Rattle.au_query.specs.Counts.{passing_rows};

use au_base::{Cell, Column, List, Memory, Name, RowNo, Truth};
use au_expr::{Resolved, Row, SessionFacts, resolve_condition, truth};
use sql_ast::Expr;
use std::alloc::Global;
use std::slice;

/// WHERE with the places of its columns, where there is one.
pub fn resolved(
    alloc: Global,
    condition: &Option<Expr>,
    range: &(Name, List<Column>),
) -> Result<Option<Resolved>, Memory>
    requires { where_kind range.now condition.now ≡ None }
    ensures { IfOk result (λ found. option_to_list found ≡ conditions_over range.now condition.now) }
{
    let Some(condition) = condition else {
        return Ok(None);
    };
    match resolve_condition(alloc, condition, slice::from_ref(range))? {
        Ok(resolved) => Ok(Some(resolved)),
        Err(_) => unreachable!(),
    }
}

/// The rows over which WHERE is Yes, in order. `None` where it overflows over one of the rows.
pub fn passing<'a>(
    alloc: Global,
    rows: &[(RowNo, &'a [Cell])],
    condition: &Option<Resolved>,
    session: &SessionFacts,
) -> Result<Option<Vec<(RowNo, &'a [Cell])>>, Memory>
    ensures { IfOk result (λ found. MatchOption found
        (overflows session.now (option_to_list condition.now) (lines rows.now ∷ []) ≡ true)
        (λ chosen. (overflows session.now (option_to_list condition.now) (lines rows.now ∷ []) ≡ false) × (lines chosen.items ≡ passing_rows session.now (option_to_list condition.now) (lines rows.now)))) }
{
    let mut chosen = Vec::new(alloc);
    for (number, cells) in rows {
        let met = match over(condition, session, *cells) {
            Some(met) => met,
            None => return Ok(None),
        };
        if met {
            chosen.push((*number, *cells))?;
        }
    }
    Ok(Some(chosen))
}

// Whether WHERE is Yes over the cells of a row. `None` where it overflows.
fn over(condition: &Option<Resolved>, session: &SessionFacts, cells: &[Cell]) -> Option<bool>
    ensures { result ≡ over_cells session.now condition.now cells.now }
{
    match condition {
        Some(condition) => {
            let mut row = Row::new();
            row.push(cells);
            over_row(condition, session, &row)
        }
        None => Some(true),
    }
}

fn over_row(condition: &Resolved, session: &SessionFacts, row: &Row<'_>) -> Option<bool>
    ensures { result ≡ met_by (value_at row.now session.now condition.now) }
{
    match truth(condition, row, session) {
        Ok(found) => Some(is_yes(found)),
        Err(_) => None,
    }
}

fn is_yes(found: Truth) -> bool
    ensures { result ≡ is_met (Holds found) }
{
    match found {
        Truth::Yes => true,
        Truth::No => false,
        Truth::Unknown => false,
    }
}
