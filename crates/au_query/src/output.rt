//! What a query answers of a combination.
ghost use Rattle.std.specs.Prelude.{◌≡◌, ◌≢◌, IfOk};
ghost use Rattle.au_expr.specs.Kinds.{kind_at};
ghost use Rattle.au_expr.specs.Placing as placing;
ghost use Rattle.au_expr.specs.Placing.{value_at};
ghost use Rattle.au_expr.specs.Ranges as ranges;
ghost use Rattle.au_expr.specs.Values.{cell_in};
ghost use Rattle.au_query.specs.Combos.{cells_over};
ghost use Rattle.au_query.specs.descent.Outputs.{tree_of, trees_in};

use au_base::{Cell, List, Memory};
use au_expr::{ExprKind, Place, Resolved, Row, SessionFacts, value};
use std::alloc::Global;
use std::marker::Model;

/// An expression that is a value. Contracts see its tree.
#[derive(Drop)]
pub struct Computed {
    expr: Resolved,
}

impl Model for Computed {
    ghost use Rattle.std.specs.Prelude.{◌≢◌};
    ghost use Rattle.au_expr.specs.declared.placed.Placed.{Placed};
    ghost use Rattle.au_expr.specs.contracts.placed.Placed as trees;
    ghost use Rattle.au_expr.specs.declared.kind.ExprKind.TheVariants as kind;
    ghost use Rattle.au_expr.specs.Kinds.{kind_at};

    ghost Value = { Placed };

    ghost coded = { trees.the_row.coded };

    ghost view = { λ c. c.expr };

    ghost invariant = { λ c. kind_at c.expr ≢ kind.Truth };
}

impl Computed {
    /// The expression, which is no condition.
    pub fn new(expr: Resolved) -> Computed
        requires { kind_at expr ≢ ExprKind.Truth }
        ensures { result ≡ expr }
    {
        Computed { expr }
    }

    /// The expression.
    pub fn expr(&self) -> &Resolved
        ensures { result.now ≡ self.now }
    {
        &self.expr
    }

    fn cell(&self, row: &Row<'_>, session: &SessionFacts) -> Result<Cell, Memory>
        ensures { IfOk result (λ cell. cell ≡ cell_in (value_at row.now session.now self.now)) }
    {
        match value(&self.expr, row, session)? {
            Ok(cell) => Ok(cell),
            Err(_) => Ok(Cell::Null),
        }
    }
}

/// A column of `*`, or an item.
#[derive(Drop)]
pub enum Output {
    Column(Place),
    Value(Computed),
}

impl Output {
    /// Whether it names this column of this range, by their numbers from 0.
    #[tactic(auto, using(crate::proofs::Columns::column_names))]
    pub fn names_column(&self, range: usize, column: usize) -> bool
        ensures { result ≡ ranges.names_column range column (tree_of self.now) }
    {
        match self {
            Output::Column(place) => place.range == range && place.column == column,
            Output::Value(computed) => computed.expr().names_column(range, column),
        }
    }

    #[tactic(auto, using(crate::proofs::Columns::column_value))]
    fn cell(&self, row: &Row<'_>, session: &SessionFacts) -> Result<Cell, Memory>
        ensures { IfOk result (λ cell. cell ≡ cell_in (value_at row.now session.now (tree_of self.now))) }
    {
        match self {
            Output::Column(place) => column_cell(row, *place),
            Output::Value(computed) => computed.cell(row, session),
        }
    }
}

fn column_cell(row: &Row<'_>, place: Place) -> Result<Cell, Memory>
    ensures { IfOk result (λ cell. cell ≡ placing.cell_at row.now place) }
{
    let Some(cells) = row.get(place.range) else {
        return Ok(Cell::Null);
    };
    match cells.get(place.column) {
        Some(cell) => Ok(cell.clone()?),
        None => Ok(Cell::Null),
    }
}

/// What the outputs give over a row.
pub fn cells(
    alloc: Global,
    outputs: &[Output],
    session: &SessionFacts,
    row: &Row<'_>,
) -> Result<List<Cell>, Memory>
    ensures { IfOk result (λ cells. cells ≡ cells_over session.now (trees_in outputs.now) row.now) }
{
    let mut cells = List::new(alloc);
    for output in outputs {
        cells.push(output.cell(row, session)?)?;
    }
    Ok(cells)
}
