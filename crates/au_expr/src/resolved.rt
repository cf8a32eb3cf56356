//! Expressions whose columns were found.
ghost use Rattle.std.specs.Prelude.{◌≡◌, IfOk};
ghost use Rattle.au_expr.specs.Kinds.{kind_at};
ghost use Rattle.au_expr.specs.Overflows as overflows;
ghost use Rattle.au_expr.specs.Ranges as spec_of;
ghost use Rattle.au_expr.specs.Resolving.{Resolves, ResolvesAsCondition, ResolvesAsValue};

use crate::kinds::{condition_code, kind_over, value_code};
use crate::overflows::can_overflow;
use crate::placing::place;
use crate::ranges::{Asked, names, names_range};
use crate::{ExprKind, Placed, Scope};
use au_base::{Code, Column, ColumnKind, List, Memory, Name};
use sql_ast::Expr;
use std::alloc::Global;
use std::marker::Model;

/// An expression with the places of its columns in a scope. `resolve` alone makes it.
#[derive(Drop)]
pub struct Resolved {
    tree: Placed,
}

impl Model for Resolved {
    ghost use Rattle.au_expr.specs.declared.placed.Placed.{Placed};
    ghost use Rattle.au_expr.specs.contracts.placed.Placed as trees;

    ghost Value = { Placed };

    ghost coded = { trees.the_row.coded };

    ghost view = { λ r. r.tree };
}

impl Resolved {
    /// Its kind; Any for NULL. It takes no memory.
    pub fn kind(&self) -> ExprKind
        ensures { result ≡ kind_at self.now }
    {
        kind_of(&self.tree)
    }

    /// Whether a column of it stands in the range of this number, from 0. It takes no memory.
    pub fn names_range(&self, range: usize) -> bool
        ensures { result ≡ spec_of.names_range range self.now }
    {
        names_range(&self.tree, range)
    }

    /// Whether it names this column of this range, by their numbers from 0. It takes no memory.
    pub fn names_column(&self, range: usize, column: usize) -> bool
        ensures { result ≡ spec_of.names_column range column self.now }
    {
        names(&self.tree, Asked::Column(range, column))
    }

    /// Whether it can overflow over rows of sound cells. It takes no memory.
    pub fn can_overflow(&self) -> bool
        ensures { result ≡ overflows.can_overflow self.now }
    {
        can_overflow(&self.tree)
    }

    /// Its tree.
    pub fn tree(&self) -> &Placed
        ensures { result.now ≡ self.now }
    {
        &self.tree
    }
}

fn kind_of(tree: &Placed) -> ExprKind
    ensures { result ≡ kind_at tree.now }
{
    match tree {
        Placed::Null => ExprKind::Any,
        Placed::Sum(_) | Placed::Product(_) | Placed::Negate(_) | Placed::Number(_) => ExprKind::Of(
            ColumnKind::Number,
        ),
        Placed::Literal(_) | Placed::User | Placed::SessionNumber => ExprKind::Of(ColumnKind::Text),
        Placed::Now | Placed::Moment(_) => ExprKind::Of(ColumnKind::Moment),
        Placed::Column(place) => ExprKind::Of(place.kind),
        _ => ExprKind::Truth,
    }
}

/// The expression with the places of its columns in the scope. The code is the first of 904 and 918
/// in written order, for a column that isn't there or is in more than one place; where there is
/// neither, 932 exactly where some part is of a wrong kind.
pub fn resolve(alloc: Global, expr: &Expr, scope: &Scope) -> Result<Result<Resolved, Code>, Memory>
    ensures { IfOk result (Resolves scope.now.ranges expr.now) }
{
    let resolved = resolve_over(alloc, expr, scope.ranges.as_slice())?;
    Ok(resolved)
}

/// As `resolve`, over ranges that are lent, such as the first ones of a scope.
pub fn resolve_over(
    alloc: Global,
    expr: &Expr,
    ranges: &[(Name, List<Column>)],
) -> Result<Result<Resolved, Code>, Memory>
    ensures { IfOk result (Resolves ranges.now expr.now) }
{
    match kind_over(expr, ranges) {
        Err(code) => Ok(Err(code)),
        Ok(_) => {
            let tree = place(alloc, expr, ranges)?;
            Ok(Ok(Resolved { tree }))
        }
    }
}

/// What has to be a condition, as ON, WHERE and a policy's condition, with the places of its columns.
/// The code is that of `condition_code`.
pub fn resolve_condition(
    alloc: Global,
    expr: &Expr,
    ranges: &[(Name, List<Column>)],
) -> Result<Result<Resolved, Code>, Memory>
    ensures { IfOk result (ResolvesAsCondition ranges.now expr.now) }
{
    match condition_code(expr, ranges) {
        Some(code) => Ok(Err(code)),
        None => {
            let tree = place(alloc, expr, ranges)?;
            Ok(Ok(Resolved { tree }))
        }
    }
}

/// What has to be a value, of the wanted kind if there is one, as an item, or an inserted or a set
/// value, with the places of its columns. The code is that of `value_code`.
pub fn resolve_value(
    alloc: Global,
    expr: &Expr,
    ranges: &[(Name, List<Column>)],
    wanted: Option<ColumnKind>,
) -> Result<Result<Resolved, Code>, Memory>
    ensures { IfOk result (ResolvesAsValue wanted ranges.now expr.now) }
{
    match value_code(expr, ranges, wanted) {
        Some(code) => Ok(Err(code)),
        None => {
            let tree = place(alloc, expr, ranges)?;
            Ok(Ok(Resolved { tree }))
        }
    }
}
