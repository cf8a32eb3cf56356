//! Conditions that are one comparison of a column with a number or a text.
ghost use Rattle.std.specs.Prelude.{◌≡◌, ◌∷◌, [], IfSome};
ghost use Rattle.std.specs.List.{position, slice_get};
ghost use Rattle.std.specs.Ordering.{nat_cmp};
ghost use Rattle.std.specs.Cmp.Lexicographic.{slice_cmp};
ghost use Rattle.std.specs.Str.{bytes_eq};
ghost use Rattle.au_base.specs.declared.cell.Cell.TheVariants as cells;
ghost use Rattle.au_expr.specs.Operators as operators;
ghost use Rattle.au_expr.specs.Placing.{cell_or_null};
ghost use Rattle.au_expr.specs.Resolving.{IsCondition};
ghost use Rattle.au_fga.specs.Testing.{range_of};
ghost use Rattle.au_fga.specs.descent.Comparing as spec;
ghost use Rattle.au_fga.specs.descent.Comparing.{Compares, Decides, IsBound, IsColumnAt, cell_compares, compares};
ghost use Rattle.au_fga.specs.descent.Rows.{some_lent};

use au_base::{Cell, Column, Name, Text};
use au_entries::Table;
use au_expr::names_or_places;
use sql_ast::{Expr, Relation};
use std::cmp::Ordering;

/// What a column is compared with.
#[derive(Clone, Copy)]
pub enum Bound<'a> {
    Number(i64),
    /// A text that isn't empty.
    Text(&'a Text),
}

/// A comparison of a column with a number or a text.
#[derive(Clone, Copy)]
pub struct Comparison<'a> {
    /// The place of the column in its table, from 0.
    pub place: usize,
    pub relation: Relation,
    pub bound: Bound<'a>,
}

/// The comparison that a condition on the table is, with the column on either side. `None` where it
/// is another condition. It takes no memory.
pub fn comparison_of<'a>(tree: &'a Expr, table: &Table) -> Option<Comparison<'a>>
    requires { IsCondition (range_of table.now ∷ []) tree.now }
    ensures { IfSome result (λ comparison. Decides table.now tree.now (λ session. compares comparison)) }
{
    names_or_places();
    match tree {
        Expr::Compare(relation, left, right) => {
            match column_with(left.get(), *relation, right.get(), table) {
                Some(comparison) => Some(comparison),
                None => column_with(right.get(), turned(*relation), left.get(), table),
            }
        }
        _ => None,
    }
}

// The comparison of a side that is a column with one that is a number or a text.
fn column_with<'a>(
    column: &Expr,
    relation: Relation,
    other: &'a Expr,
    table: &Table,
) -> Option<Comparison<'a>>
    ensures { IfSome result (Compares table.now relation column.now other.now) }
{
    match (place_of(column, table), bound_of(other)) {
        (Some(place), Some(bound)) => Some(Comparison {
            place,
            relation,
            bound,
        }),
        _ => None,
    }
}

// The place of the column that the side names. The name means one column of the table at most, and
// a table that is written before it is this one.
fn place_of(side: &Expr, table: &Table) -> Option<usize>
    ensures { IfSome result (IsColumnAt table.now side.now) }
{
    match side {
        Expr::Column(_, name) => first_of(table.columns.as_slice(), name),
        _ => None,
    }
}

fn first_of(columns: &[Column], name: &Name) -> Option<usize>
    ensures { result ≡ position (λ column. bytes_eq column.name name.now) columns.now }
{
    columns.iter().position(|column| column.name == *name)
}

fn bound_of<'a>(side: &'a Expr) -> Option<Bound<'a>>
    ensures { IfSome result (IsBound side.now) }
{
    match side {
        Expr::Number(number) => Some(Bound::Number(*number)),
        // the empty text is NULL
        Expr::Literal(text) if !text.as_bytes().is_empty() => Some(Bound::Text(text)),
        _ => None,
    }
}

fn turned(relation: Relation) -> Relation
    ensures { result ≡ spec.turned relation }
{
    match relation {
        Relation::Equal => Relation::Equal,
        Relation::Unequal => Relation::Unequal,
        Relation::Less => Relation::Greater,
        Relation::LessEqual => Relation::GreaterEqual,
        Relation::Greater => Relation::Less,
        Relation::GreaterEqual => Relation::LessEqual,
    }
}

/// Whether the comparison holds of one of the rows. It holds of none whose cell is NULL.
pub fn one_compares(comparison: Comparison<'_>, rows: &[&[Cell]]) -> bool
    ensures { result ≡ some_lent (compares comparison.entry) rows.now }
{
    let Comparison {
        place,
        relation,
        bound,
    } = comparison;
    match bound {
        Bound::Number(number) => one_number_compares(rows, place, relation, number),
        Bound::Text(text) => one_text_compares(rows, place, relation, text),
    }
}

fn one_number_compares(rows: &[&[Cell]], place: usize, relation: Relation, bound: i64) -> bool
    ensures { result ≡ some_lent (λ row. cell_compares relation (cell_or_null (slice_get row place)) (cells.Num bound)) rows.now }
{
    rows.iter()
        .any(|row| number_at_compares(row, place, relation, bound))
}

fn number_at_compares(row: &[Cell], place: usize, relation: Relation, bound: i64) -> bool
    ensures { result ≡ cell_compares relation (cell_or_null (slice_get row.now place)) (cells.Num bound) }
{
    match row.get(place) {
        Some(cell) => number_compares(cell, relation, bound),
        None => false,
    }
}

fn number_compares(cell: &Cell, relation: Relation, bound: i64) -> bool
    ensures { result ≡ cell_compares relation cell.now (cells.Num bound) }
{
    match cell {
        Cell::Num(number) => is_asked(relation, number.cmp(&bound)),
        Cell::Null | Cell::Text(_) | Cell::Moment(_) => false,
    }
}

fn one_text_compares(rows: &[&[Cell]], place: usize, relation: Relation, bound: &Text) -> bool
    ensures { result ≡ some_lent (λ row. cell_compares relation (cell_or_null (slice_get row place)) (cells.Text bound.now)) rows.now }
{
    rows.iter()
        .any(|row| text_at_compares(row, place, relation, bound))
}

fn text_at_compares(row: &[Cell], place: usize, relation: Relation, bound: &Text) -> bool
    ensures { result ≡ cell_compares relation (cell_or_null (slice_get row.now place)) (cells.Text bound.now) }
{
    match row.get(place) {
        Some(cell) => text_compares(cell, relation, bound),
        None => false,
    }
}

fn text_compares(cell: &Cell, relation: Relation, bound: &Text) -> bool
    ensures { result ≡ cell_compares relation cell.now (cells.Text bound.now) }
{
    match cell {
        Cell::Text(text) => texts_compare(relation, text, bound),
        Cell::Null | Cell::Num(_) | Cell::Moment(_) => false,
    }
}

// Texts of other lengths aren't equal, which `==` sees before it reads them.
fn texts_compare(relation: Relation, text: &Text, bound: &Text) -> bool
    ensures { result ≡ operators.is_asked relation (slice_cmp nat_cmp text.now bound.now) }
{
    match relation {
        Relation::Equal => *text == *bound,
        Relation::Unequal => *text != *bound,
        _ => is_asked(relation, text.cmp(bound)),
    }
}

fn is_asked(relation: Relation, order: Ordering) -> bool
    ensures { result ≡ operators.is_asked relation order }
{
    match relation {
        Relation::Equal => order.is_eq(),
        Relation::Unequal => order.is_ne(),
        Relation::Less => order.is_lt(),
        Relation::LessEqual => order.is_le(),
        Relation::Greater => order.is_gt(),
        Relation::GreaterEqual => order.is_ge(),
    }
}
