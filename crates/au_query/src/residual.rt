//! What is left of a comparison over the rows of one more table, where those of the tables before it
//! are given.
ghost use Rattle.std.specs.Prelude.{◌≡◌, ◌↔◌, ◌++◌, ◌∷◌, [], IsTrue, List, IfSome};
ghost use Rattle.au_base.specs.declared.cell.Cell.{Cell as AnyCell};
ghost use Rattle.au_expr.specs.Operators.{added, compare_value, sign_value, sum_value};
ghost use Rattle.au_expr.specs.Operators as operators;
ghost use Rattle.au_expr.specs.Placing.{cell_or_null, signed_values_at, value_at};
ghost use Rattle.au_expr.specs.Sessions.{Session};
ghost use Rattle.au_expr.specs.Values as values;
ghost use Rattle.au_query.specs.descent.Residuals as spec;
ghost use Rattle.au_query.specs.descent.Residuals.{IsAlwaysMet, IsResidual, IsSideOf, IsSieve, are_met_by, number_or_overflow, number_of, residual_value, side_value, sides};
ghost use Rattle.au_query.specs.descent.Inside.{trees_in_tests};
ghost use Rattle.std.specs.List.{slice_get};

use crate::cutting::Test;
use au_base::{Cell, add, subtract};
use au_expr::{Place, Placed, Row};
use sql_ast::Relation;

/// One side of a comparison over a row of the next table.
#[derive(Clone, Copy)]
pub enum Side {
    /// The same number over each row.
    Number(i64),
    /// The cell in the column of this number.
    Column(usize),
    /// The number and the cell in the column, added, or subtracted where `true`.
    Sum(i64, bool, usize),
}

/// A comparison of a side with a number over a row of the next table. The number stands on the left
/// where `number_first`.
#[derive(Clone, Copy)]
pub struct Residual {
    side: Side,
    relation: Relation,
    number: i64,
    number_first: bool,
}

impl Residual {
    /// Whether it is Yes over these cells.
    #[tactic(auto, using(crate::proofs::Residuals::unmet, crate::proofs::Residuals::met_number))]
    pub fn is_met(self, cells: &[Cell]) -> bool
        ensures { result ≡ values.is_met (residual_value self cells.now) }
    {
        match self.side.number(cells) {
            Some(number) => self.holds_of(number),
            None => false,
        }
    }

    fn holds_of(self, number: i64) -> bool
        ensures { result ≡ values.is_met (sides self.number_first self.relation (operators.number number) (operators.number self.number)) }
    {
        if self.number_first {
            return holds(self.relation, self.number, number);
        }
        holds(self.relation, number, self.number)
    }

    // Whether it is Yes over whatever cells, since none of them stands in it.
    #[tactic(auto, using(crate::proofs::Residuals::met_by_number))]
    fn is_always_met(self) -> bool
        ensures { IsTrue result ↔ IsAlwaysMet self }
    {
        match self.side {
            Side::Number(number) => self.holds_of(number),
            Side::Column(_column) => false,
            Side::Sum(_before, _minus, _column) => false,
        }
    }

    /// Whether it overflows over these cells.
    #[tactic(auto, using(crate::proofs::Residuals::overflow_is))]
    pub fn overflows(self, cells: &[Cell]) -> bool
        ensures { result ≡ values.is_overflow (residual_value self cells.now) }
    {
        self.side.overflows(cells)
    }
}

impl Side {
    // The number that it gives over these cells. `None` where it gives none, or overflows.
    fn number(self, cells: &[Cell]) -> Option<i64>
        ensures { result ≡ number_of (side_value self cells.now) }
    {
        match self {
            Side::Number(number) => Some(number),
            Side::Column(column) => number_in(cells, column),
            Side::Sum(before, minus, column) => match number_in(cells, column) {
                Some(number) => summed(before, minus, number),
                None => None,
            },
        }
    }

    fn overflows(self, cells: &[Cell]) -> bool
        ensures { result ≡ values.is_overflow (side_value self cells.now) }
    {
        match self {
            Side::Sum(before, minus, column) => match number_in(cells, column) {
                Some(number) => sum_overflows(before, minus, number),
                None => false,
            },
            _ => false,
        }
    }
}

fn number_in(cells: &[Cell], column: usize) -> Option<i64>
    ensures { result ≡ spec.number_in_cell (cell_or_null (slice_get cells.now column)) }
{
    match cells.get(column) {
        Some(Cell::Num(number)) => Some(*number),
        _ => None,
    }
}

// The sum, or the difference where `minus`. `None` where it has over 18 digits.
fn summed(a: i64, minus: bool, b: i64) -> Option<i64>
    ensures { number_or_overflow result ≡ added minus (operators.number a) (operators.number b) }
{
    if minus { subtract(a, b) } else { add(a, b) }
}

fn sum_overflows(a: i64, minus: bool, b: i64) -> bool
    ensures { result ≡ values.is_overflow (added minus (operators.number a) (operators.number b)) }
{
    match summed(a, minus, b) {
        Some(_) => false,
        None => true,
    }
}

fn holds(relation: Relation, a: i64, b: i64) -> bool
    ensures { result ≡ values.is_met (compare_value relation (operators.number a) (operators.number b)) }
{
    let order = a.cmp(&b);
    match relation {
        Relation::Equal => order.is_eq(),
        Relation::Unequal => order.is_ne(),
        Relation::Less => order.is_lt(),
        Relation::LessEqual => order.is_le(),
        Relation::Greater => order.is_gt(),
        Relation::GreaterEqual => order.is_ge(),
    }
}

/// What is left of a condition over a row of the table behind those of `row`. `None` where it is no
/// comparison of numbers, columns and sums; where a column of an earlier table gives no number; and
/// where a column of the next one isn't the last summand. It takes no memory.
pub fn residual_of(condition: &Placed, row: &Row<'_>) -> Option<Residual>
    ensures { IfSome result (IsResidual row.now condition.now) }
{
    match condition {
        Placed::Compare(relation, left, right) => comparison(
            *relation,
            left.get(),
            right.get(),
            row,
        ),
        _ => None,
    }
}

fn comparison(relation: Relation, left: &Placed, right: &Placed, row: &Row<'_>) -> Option<Residual>
    ensures { IfSome result (λ residual. (session : Session) (cells : List AnyCell)
        → compare_value relation (value_at (row.now ++ cells ∷ []) session left.now) (value_at (row.now ++ cells ∷ []) session right.now) ≡ residual_value residual cells) }
{
    match side_of(left, row) {
        Some(left) => match side_of(right, row) {
            Some(right) => against_number(left, relation, right),
            None => None,
        },
        None => None,
    }
}

fn against_number(left: Side, relation: Relation, right: Side) -> Option<Residual>
    ensures { IfSome result (λ residual. (cells : List AnyCell) → compare_value relation (side_value left cells) (side_value right cells) ≡ residual_value residual cells) }
{
    match (left, right) {
        (side, Side::Number(number)) => Some(Residual {
            side,
            relation,
            number,
            number_first: false,
        }),
        (Side::Number(number), side) => Some(Residual {
            side,
            relation,
            number,
            number_first: true,
        }),
        _ => None,
    }
}

fn side_of(tree: &Placed, row: &Row<'_>) -> Option<Side>
    ensures { IfSome result (IsSideOf row.now tree.now) }
{
    match tree {
        Placed::Sum(parts) => sum_side(parts.as_slice(), row),
        _ => plain_side(tree, row),
    }
}

fn sum_side(parts: &[(bool, Placed)], row: &Row<'_>) -> Option<Side>
    ensures { IfSome result (λ side. (session : Session) (cells : List AnyCell)
        → sum_value (signed_values_at (row.now ++ cells ∷ []) session parts.now) ≡ side_value side cells) }
{
    let mut side = Side::Number(0);
    for (minus, part) in parts {
        match with_summand(side, *minus, part, row) {
            Some(longer) => side = longer,
            None => return None,
        }
    }
    Some(side)
}

fn with_summand(side: Side, minus: bool, part: &Placed, row: &Row<'_>) -> Option<Side>
    ensures { IfSome result (λ longer. (session : Session) (cells : List AnyCell)
        → added minus (side_value side cells) (value_at (row.now ++ cells ∷ []) session part.now) ≡ side_value longer cells) }
{
    match plain_side(part, row) {
        Some(summand) => with_side(side, minus, summand),
        None => None,
    }
}

fn with_side(side: Side, minus: bool, summand: Side) -> Option<Side>
    ensures { IfSome result (λ longer. (cells : List AnyCell) → added minus (side_value side cells) (side_value summand cells) ≡ side_value longer cells) }
{
    match (side, summand) {
        (Side::Number(a), Side::Number(b)) => match summed(a, minus, b) {
            Some(sum) => Some(Side::Number(sum)),
            None => None,
        },
        (Side::Number(before), Side::Column(column)) => Some(Side::Sum(before, minus, column)),
        _ => None,
    }
}

fn plain_side(tree: &Placed, row: &Row<'_>) -> Option<Side>
    ensures { IfSome result (IsSideOf row.now tree.now) }
{
    match tree {
        Placed::Negate(part) => negated_side(part.get(), row),
        _ => unsigned_side(tree, row),
    }
}

fn negated_side(tree: &Placed, row: &Row<'_>) -> Option<Side>
    ensures { IfSome result (λ side. (session : Session) (cells : List AnyCell)
        → sign_value (value_at (row.now ++ cells ∷ []) session tree.now) ≡ side_value side cells) }
{
    match unsigned_side(tree, row) {
        Some(side) => with_side(Side::Number(0), true, side),
        None => None,
    }
}

fn unsigned_side(tree: &Placed, row: &Row<'_>) -> Option<Side>
    ensures { IfSome result (IsSideOf row.now tree.now) }
{
    match tree {
        Placed::Number(number) => Some(Side::Number(*number)),
        Placed::Column(place) => column_side(*place, row),
        _ => None,
    }
}

fn column_side(place: Place, row: &Row<'_>) -> Option<Side>
    ensures { IfSome result (λ side. (cells : List AnyCell) → values.Is (spec.cell_behind row.now cells place) ≡ side_value side cells) }
{
    if place.range == row.len() {
        return Some(Side::Column(place.column));
    }
    match row.get(place.range) {
        Some(cells) => number_side(cells, place.column),
        None => None,
    }
}

fn number_side(cells: &[Cell], column: usize) -> Option<Side>
    ensures { IfSome result (λ side. (others : List AnyCell) → values.Is (cell_or_null (slice_get cells.now column)) ≡ side_value side others) }
{
    match number_in(cells, column) {
        Some(number) => Some(Side::Number(number)),
        None => None,
    }
}

/// The first of the conditions that is such a comparison and not Yes over whatever row, as one of
/// the earlier tables alone may be. It takes no memory.
pub fn sieve_of(tests: &[Test<'_>], row: &Row<'_>) -> Option<Residual>
    ensures { IfSome result (IsSieve (trees_in_tests tests.now) row.now) }
{
    for test in tests {
        if let Some(residual) = sieve_in(test.condition, row) {
            return Some(residual);
        }
    }
    None
}

fn sieve_in(condition: &Placed, row: &Row<'_>) -> Option<Residual>
    ensures { IfSome result (IsResidual row.now condition.now) }
{
    match residual_of(condition, row) {
        Some(residual) if !residual.is_always_met() => Some(residual),
        _ => None,
    }
}

/// Whether there is such a comparison and it isn't Yes over these cells.
pub fn is_left_out(sieve: Option<Residual>, cells: &[Cell]) -> bool
    ensures { result ≡ spec.is_left_out sieve cells.now }
{
    match sieve {
        Some(residual) => !residual.is_met(cells),
        None => false,
    }
}

/// Whether each comparison is Yes over these cells.
pub fn are_all_met(comparisons: &[Residual], cells: &[Cell]) -> bool
    ensures { result ≡ are_met_by cells.now comparisons.now }
{
    for comparison in comparisons {
        if !comparison.is_met(cells) {
            return false;
        }
    }
    true
}
