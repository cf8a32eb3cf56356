//! The values of an INSERT, which name no column.
ghost use Rattle.std.specs.Prelude.{◌≡◌, IfOk, MatchOption, false, map, true};
ghost use Rattle.std.specs.List.{AllByRecursion, list_any};
ghost use Rattle.au_insert.specs.Inserting as spec;
ghost use Rattle.au_insert.specs.Inserting.{value_overflows};
ghost use Rattle.au_insert.specs.Inside.{IsFree};

use au_base::{Cell, Memory};
use au_expr::{Row, SessionFacts, resolve_over, value as value_of};
use sql_ast::Expr;
use std::alloc::Global;

/// The cells that the values give. `None` exactly where one of them overflows.
pub fn given_cells(
    alloc: Global,
    session: &SessionFacts,
    values: &[Expr],
) -> Result<Option<Vec<Cell>>, Memory>
    requires { AllByRecursion IsFree values.now }
    ensures { IfOk result (λ found. MatchOption found (list_any (value_overflows session.now) values.now ≡ true)
        (λ cells. (list_any (value_overflows session.now) values.now ≡ false) × (cells.items ≡ map (spec.cell_of session.now) values.now))) }
{
    let mut cells = Vec::new(alloc);
    for value in values {
        match given_cell(alloc, session, value)? {
            Some(cell) => cells.push(cell)?,
            None => return Ok(None),
        }
    }
    Ok(Some(cells))
}

fn given_cell(alloc: Global, session: &SessionFacts, value: &Expr) -> Result<Option<Cell>, Memory>
    requires { IsFree value.now }
    ensures { IfOk result (λ found. MatchOption found (value_overflows session.now value.now ≡ true)
        (λ cell. (value_overflows session.now value.now ≡ false) × (cell ≡ spec.cell_of session.now value.now))) }
{
    match resolve_over(alloc, value, &[])? {
        Ok(resolved) => match value_of(&resolved, &Row::new(), session)? {
            Ok(cell) => Ok(Some(cell)),
            Err(_) => Ok(None),
        },
        Err(_) => Ok(None),
    }
}
