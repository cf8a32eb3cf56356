//! What an expression gives, as it is held while a row is read.
ghost use Rattle.std.specs.Prelude.{◌≡◌, ◌∷◌, [], IfOk, false};
ghost use Rattle.std.specs.Str.{chars};
ghost use Rattle.au_base.specs.Truths.{conjunction, disjunction, truth_of};
ghost use Rattle.au_base.specs.Cells.{text_cell};
ghost use Rattle.au_expr.specs.Descent.{is_holds, joined, number_or_overflow, told, turned_value};
ghost use Rattle.au_expr.specs.Likes.{likes};
ghost use Rattle.au_expr.specs.Operators.{added, between_value, compare_value, like_value, multiplied, not_value, null_value, turned};
ghost use Rattle.au_expr.specs.Operators as spec;
ghost use Rattle.au_expr.specs.Values.{GivesCell, GivesTruth, Holds, Is, is_overflow, truth_in, unless_overflow};

use au_base::{Cell, Code, Memory, Text, Truth, add, like, multiply, subtract};
use sql_ast::Relation;
use std::cmp::Ordering;

/// A cell whose text is lent, a truth, or an overflow.
#[derive(Clone, Copy)]
pub enum Found<'a> {
    Null,
    Num(i64),
    Text(&'a Text),
    Moment(u64),
    Truth(Truth),
    /// A number has over 18 digits.
    Overflow,
}

impl<'a> Found<'a> {
    /// A cell.
    pub fn of_cell(cell: &'a Cell) -> Found<'a>
        ensures { told result ≡ Is cell.now }
    {
        match cell {
            Cell::Null => Found::Null,
            Cell::Num(number) => Found::Num(*number),
            Cell::Text(text) => Found::Text(text),
            Cell::Moment(moment) => Found::Moment(*moment),
        }
    }

    /// A text, which is NULL where it is empty.
    pub fn of_text(text: &'a Text) -> Found<'a>
        ensures { told result ≡ Is (text_cell text.now) }
    {
        if text.as_bytes().is_empty() {
            return Found::Null;
        }
        Found::Text(text)
    }

    /// Its truth, which is unknown where it is none.
    pub fn truth(self) -> Truth
        ensures { result ≡ truth_in (told self.entry) }
    {
        match self {
            Found::Truth(truth) => truth,
            _ => Truth::Unknown,
        }
    }

    /// Whether it is an overflow.
    pub fn is_overflow(self) -> bool
        ensures { result ≡ is_overflow (told self.entry) }
    {
        match self {
            Found::Overflow => true,
            _ => false,
        }
    }

    /// NOT.
    pub fn not(self) -> Found<'a>
        ensures { told result ≡ not_value (told self.entry) }
    {
        match self {
            Found::Overflow => Found::Overflow,
            Found::Truth(truth) => Found::Truth(truth.not()),
            _ => Found::Truth(Truth::Unknown),
        }
    }

    /// AND.
    pub fn and(self, other: Found<'_>) -> Found<'a>
        ensures { told result ≡ joined conjunction (told self.entry) (told other.entry) }
    {
        match (self, other) {
            (Found::Overflow, _) => Found::Overflow,
            (_, Found::Overflow) => Found::Overflow,
            _ => Found::Truth(self.truth().and(other.truth())),
        }
    }

    /// OR.
    pub fn or(self, other: Found<'_>) -> Found<'a>
        ensures { told result ≡ joined disjunction (told self.entry) (told other.entry) }
    {
        match (self, other) {
            (Found::Overflow, _) => Found::Overflow,
            (_, Found::Overflow) => Found::Overflow,
            _ => Found::Truth(self.truth().or(other.truth())),
        }
    }

    /// No, unless it is an overflow: an OR of no tests of it.
    pub fn no_if_known(self) -> Found<'a>
        ensures { told result ≡ unless_overflow (told self.entry ∷ []) (Holds Truth.No) }
    {
        match self {
            Found::Overflow => Found::Overflow,
            _ => Found::Truth(Truth::No),
        }
    }

    /// A test's truth, or its opposite where NOT stands inside the test.
    pub fn turned(self, negated: bool) -> Found<'a>
        ensures { told result ≡ turned_value negated (told self.entry) }
    {
        match self {
            Found::Truth(truth) if negated => Found::Truth(truth.not()),
            _ => self,
        }
    }

    /// IS NULL, or IS NOT NULL.
    pub fn is_null(self, negated: bool) -> Found<'a>
        ensures { told result ≡ null_value negated (told self.entry) }
    {
        match self {
            Found::Overflow => Found::Overflow,
            Found::Null | Found::Truth(_) => test(negated, Truth::Yes),
            _ => test(negated, Truth::No),
        }
    }

    /// A comparison.
    pub fn compared(self, asked: Relation, other: Found<'_>) -> Found<'a>
        ensures { told result ≡ compare_value asked (told self.entry) (told other.entry) }
    {
        let order = match (self, other) {
            (Found::Overflow, _) => return Found::Overflow,
            (_, Found::Overflow) => return Found::Overflow,
            (Found::Num(a), Found::Num(b)) => Some(a.cmp(&b)),
            (Found::Text(a), Found::Text(b)) => Some(a.cmp(b)),
            (Found::Moment(a), Found::Moment(b)) => Some(a.cmp(&b)),
            _ => None,
        };
        Found::Truth(truth_of_order(asked, order))
    }

    /// LIKE a pattern, or NOT LIKE.
    pub fn like(self, negated: bool, pattern: Found<'_>) -> Found<'a>
        ensures { told result ≡ like_value negated (told self.entry) (told pattern.entry) }
    {
        match (self, pattern) {
            (Found::Overflow, _) => Found::Overflow,
            (_, Found::Overflow) => Found::Overflow,
            (Found::Text(text), Found::Text(pattern)) => test(negated, is_like(text, pattern)),
            _ => Found::Truth(Truth::Unknown),
        }
    }

    /// BETWEEN a least and a greatest, or NOT BETWEEN.
    #[tactic(auto, using(crate::proofs::Joining::between_is))]
    pub fn between(self, negated: bool, low: Found<'_>, high: Found<'_>) -> Found<'a>
        ensures { told result ≡ between_value negated (told self.entry) (told low.entry) (told high.entry) }
    {
        let above = self.compared(Relation::GreaterEqual, low);
        let below = self.compared(Relation::LessEqual, high);
        above.and(below).turned(negated)
    }

    /// The sum, or the difference where `minus`.
    pub fn added(self, minus: bool, other: Found<'_>) -> Found<'a>
        ensures { told result ≡ added minus (told self.entry) (told other.entry) }
    {
        match (self, other) {
            (Found::Overflow, _) => Found::Overflow,
            (_, Found::Overflow) => Found::Overflow,
            (Found::Num(a), Found::Num(b)) if minus => of_number(subtract(a, b)),
            (Found::Num(a), Found::Num(b)) => of_number(add(a, b)),
            _ => Found::Null,
        }
    }

    /// The product.
    pub fn multiplied(self, other: Found<'_>) -> Found<'a>
        ensures { told result ≡ multiplied (told self.entry) (told other.entry) }
    {
        match (self, other) {
            (Found::Overflow, _) => Found::Overflow,
            (_, Found::Overflow) => Found::Overflow,
            (Found::Num(a), Found::Num(b)) => of_number(multiply(a, b)),
            _ => Found::Null,
        }
    }

    /// Its cell, for which a text is copied; 1426 where it is an overflow.
    pub fn into_cell(self) -> Result<Result<Cell, Code>, Memory>
        requires { is_holds (told self) ≡ false }
        ensures { IfOk result (λ found. GivesCell found (told self.entry)) }
    {
        match self {
            Found::Null | Found::Truth(_) => Ok(Ok(Cell::Null)),
            Found::Num(number) => Ok(Ok(Cell::Num(number))),
            Found::Text(text) => Ok(Ok(Cell::Text(text.clone()?))),
            Found::Moment(moment) => Ok(Ok(Cell::Moment(moment))),
            Found::Overflow => Ok(Err(Code::OVERFLOW)),
        }
    }

    /// Its truth; 1426 where it is an overflow.
    pub fn into_truth(self) -> Result<Truth, Code>
        ensures { GivesTruth result (told self.entry) }
    {
        match self {
            Found::Truth(truth) => Ok(truth),
            Found::Overflow => Err(Code::OVERFLOW),
            _ => Ok(Truth::Unknown),
        }
    }
}

fn test<'a>(negated: bool, truth: Truth) -> Found<'a>
    ensures { told result ≡ Holds (turned negated truth) }
{
    Found::Truth(if negated { truth.not() } else { truth })
}

fn truth_of_order(asked: Relation, order: Option<Ordering>) -> Truth
    ensures { result ≡ spec.truth_of_order asked order }
{
    match order {
        None => Truth::Unknown,
        Some(order) => Truth::from(match asked {
            Relation::Equal => order.is_eq(),
            Relation::Unequal => order.is_ne(),
            Relation::Less => order.is_lt(),
            Relation::LessEqual => order.is_le(),
            Relation::Greater => order.is_gt(),
            Relation::GreaterEqual => order.is_ge(),
        }),
    }
}

fn is_like(text: &Text, pattern: &Text) -> Truth
    ensures { result ≡ truth_of (likes (chars pattern.now) (chars text.now)) }
{
    Truth::from(like(text, pattern))
}

fn of_number<'a>(number: Option<i64>) -> Found<'a>
    ensures { told result ≡ number_or_overflow number }
{
    match number {
        Some(number) => Found::Num(number),
        None => Found::Overflow,
    }
}
