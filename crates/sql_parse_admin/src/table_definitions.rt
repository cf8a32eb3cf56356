//! CREATE TABLE.
ghost use Rattle.std.specs.Option.{option_map};
ghost use Rattle.std.specs.Prelude.{◌≡◌, List, true};
ghost use Rattle.std.specs.List.{list_any};
ghost use Rattle.sql_ast.specs.declared.statement.Statement.{Statement as Tree};
ghost use Rattle.sql_parse.specs.Conditions.{opens_few};
ghost use Rattle.sql_parse.specs.Symbols.{kinds};
ghost use Rattle.sql_parse.specs.Whole.{Finds};
ghost use Rattle.sql_parse.specs.descent.Reading.{Gives};
ghost use Rattle.sql_parse.specs.TableStatements.{is_column, IsTableStatement};
ghost use Rattle.sql_parse_admin.specs.descent.ReadTableDefinitions as spec;

use au_base::limits::{MOMENT_DIGITS, NUMBER_DIGITS, TEXT_COLUMN_BYTES};
use au_base::{Column, ColumnKind, List, Memory, Name};
use sql_ast::{CreateTable, Element, Statement};
use sql_lex::{Kind, Mark, Token};
use sql_parse::Stop;
use sql_parse::cursor::{behind, expect_mark, expect_word, past_word, sees_mark, sees_word};
use sql_parse::endings::whole;
use sql_parse::lists::{Part, parted};
use sql_parse::names::name;
use sql_parse::tables::{names, table};
use std::alloc::Global;

/// The CREATE TABLE that the tokens are, with `;` behind it or without. `None` where they are none.
/// Nothing is said of tokens that open over 100 parentheses at once.
pub fn table_statement(alloc: Global, tokens: &[Token]) -> Result<Option<Statement>, Memory>
    ensures { opens_few 0 (kinds tokens.now) ≡ true → Finds (IsTableStatement (kinds tokens.now)) result }
{
    whole(statement(alloc, tokens))
}

/// Tokens are one such statement at most.
pub fn one_table_statement()
    ensures { (ts : List Kind) (x y : Tree) → IsTableStatement ts x → IsTableStatement ts y → x ≡ y }
{}

#[tactic(auto, unfolding(crate::specs::descent::ReadTableDefinitions::table_statement))]
fn statement(alloc: Global, tokens: &[Token]) -> Result<(Statement, &[Token]), Stop>
    ensures { Gives (λ x. (x.0, kinds x.1.now)) result (spec.table_statement (kinds tokens.now)) }
{
    let rest = expect_word(tokens, b"CREATE").ok_or(Stop::Unread)?;
    let rest = expect_word(rest, b"TABLE").ok_or(Stop::Unread)?;
    let (table, rest) = table(alloc, rest)?;
    let rest = expect_mark(rest, Mark::OpenParenthesis).ok_or(Stop::Unread)?;
    let (elements, rest) = elements(alloc, rest)?;
    let rest = expect_mark(rest, Mark::CloseParenthesis).ok_or(Stop::Unread)?;
    if !has_column(elements.as_slice()) {
        return Err(Stop::Unread);
    }
    Ok((
        Statement::CreateTable(CreateTable { table, elements }),
        rest,
    ))
}

// Whether one of the elements is a column.
fn has_column(mut elements: &[Element]) -> bool
    ensures { result ≡ list_any is_column elements.entry.now }
{
    while let [element, rest @ ..] = elements {
        if is_column(element) {
            return true;
        }
        elements = rest;
    }
    false
}

fn is_column(element: &Element) -> bool
    ensures { result ≡ is_column element.now }
{
    match element {
        Element::Column { .. } => true,
        Element::PrimaryKey(_) => false,
    }
}

#[tactic(auto, unfolding(crate::specs::descent::ReadTableDefinitions::elements))]
fn elements(alloc: Global, tokens: &[Token]) -> Result<(List<Element>, &[Token]), Stop>
    ensures { Gives (λ x. (x.0, kinds x.1.now)) result (spec.elements (kinds tokens.now)) }
{
    parted(alloc, &ElementPart, tokens)
}

struct ElementPart;

impl Part for ElementPart {
    type Tree = Element;

    ghost reading = { λ _. spec.element_at };

    fn read<'t>(&self, alloc: Global, tokens: &'t [Token]) -> Result<(Element, &'t [Token]), Stop> {
        element(alloc, tokens)
    }
}

#[tactic(auto, unfolding(crate::specs::descent::ReadTableDefinitions::element_at))]
fn element(alloc: Global, tokens: &[Token]) -> Result<(Element, &[Token]), Stop>
    ensures { Gives (λ x. (x.0, kinds x.1.now)) result (spec.element_at (kinds tokens.now)) }
{
    if sees_word(tokens, b"PRIMARY") {
        key(alloc, behind(tokens))
    } else {
        column(alloc, tokens)
    }
}

// A list of key columns whose PRIMARY came before.
#[tactic(auto, unfolding(crate::specs::descent::ReadTableDefinitions::key))]
fn key(alloc: Global, tokens: &[Token]) -> Result<(Element, &[Token]), Stop>
    ensures { Gives (λ x. (x.0, kinds x.1.now)) result (spec.key (kinds tokens.now)) }
{
    let rest = expect_word(tokens, b"KEY").ok_or(Stop::Unread)?;
    let rest = expect_mark(rest, Mark::OpenParenthesis).ok_or(Stop::Unread)?;
    let (columns, rest) = names(alloc, rest)?;
    let rest = expect_mark(rest, Mark::CloseParenthesis).ok_or(Stop::Unread)?;
    Ok((Element::PrimaryKey(columns), rest))
}

// name type [NOT NULL] [PRIMARY KEY]
#[tactic(auto, unfolding(crate::specs::descent::ReadTableDefinitions::column))]
fn column(alloc: Global, tokens: &[Token]) -> Result<(Element, &[Token]), Stop>
    ensures { Gives (λ x. (x.0, kinds x.1.now)) result (spec.column (kinds tokens.now)) }
{
    let (name, rest) = name(alloc, tokens)?;
    let ((kind, size), rest) = column_type(rest).ok_or(Stop::Unread)?;
    let (not_null, rest) = both(rest, b"NOT", b"NULL").ok_or(Stop::Unread)?;
    let (primary_key, rest) = both(rest, b"PRIMARY", b"KEY").ok_or(Stop::Unread)?;
    Ok((column_of(name, kind, size, not_null, primary_key), rest))
}

fn column_of(name: Name, kind: ColumnKind, size: u16, not_null: bool, primary_key: bool) -> Element
    ensures { result ≡ spec.column_of name (kind, size) not_null primary_key }
{
    let column = Column {
        name,
        kind,
        size,
        not_null,
    };
    Element::Column {
        column,
        primary_key,
    }
}

// Both words or nothing, and whether they stand there.
#[tactic(auto, unfolding(crate::specs::descent::ReadTableDefinitions::both))]
fn both<'t>(tokens: &'t [Token], first: &[u8], second: &[u8]) -> Option<(bool, &'t [Token])>
    ensures { option_map (λ x. (x.0, kinds x.1.now)) result ≡ spec.both first.now second.now (kinds tokens.now) }
{
    if !sees_word(tokens, first) {
        return Some((false, tokens));
    }
    let rest = expect_word(behind(tokens), second)?;
    Some((true, rest))
}

// NUMBER [( p )] | VARCHAR2 ( n [BYTE] ) | TIMESTAMP [( 6 )]
#[tactic(auto, unfolding(crate::specs::descent::ReadTableDefinitions::column_type))]
fn column_type(tokens: &[Token]) -> Option<((ColumnKind, u16), &[Token])>
    ensures { option_map (λ x. (x.0, kinds x.1.now)) result ≡ spec.column_type (kinds tokens.now) }
{
    let rest = behind(tokens);
    if sees_word(tokens, b"NUMBER") {
        let (size, rest) = size_or_most(rest, 1, NUMBER_DIGITS)?;
        Some(((ColumnKind::Number, size), rest))
    } else if sees_word(tokens, b"VARCHAR2") {
        let (size, rest) = bytes(rest)?;
        Some(((ColumnKind::Text, size), rest))
    } else if sees_word(tokens, b"TIMESTAMP") {
        let (size, rest) = size_or_most(rest, MOMENT_DIGITS, MOMENT_DIGITS)?;
        Some(((ColumnKind::Moment, size), rest))
    } else {
        None
    }
}

// ( n [BYTE] )
#[tactic(auto, unfolding(crate::specs::descent::ReadTableDefinitions::bytes))]
fn bytes(tokens: &[Token]) -> Option<(u16, &[Token])>
    ensures { option_map (λ x. (x.0, kinds x.1.now)) result ≡ spec.bytes (kinds tokens.now) }
{
    let rest = expect_mark(tokens, Mark::OpenParenthesis)?;
    let (size, rest) = size(rest, 1, TEXT_COLUMN_BYTES)?;
    let rest = expect_mark(past_word(rest, b"BYTE"), Mark::CloseParenthesis)?;
    Some((size, rest))
}

// A number from the least to the most in parentheses, or else nothing, which stands for the most.
#[tactic(auto, unfolding(crate::specs::descent::ReadTableDefinitions::size_or_most))]
fn size_or_most(tokens: &[Token], least: u16, most: u16) -> Option<(u16, &[Token])>
    ensures { option_map (λ x. (x.0, kinds x.1.now)) result ≡ spec.size_or_most least most (kinds tokens.now) }
{
    if !sees_mark(tokens, Mark::OpenParenthesis) {
        return Some((most, tokens));
    }
    let (found, rest) = size(behind(tokens), least, most)?;
    let rest = expect_mark(rest, Mark::CloseParenthesis)?;
    Some((found, rest))
}

// A number from the least to the most.
#[tactic(auto, unfolding(crate::specs::descent::ReadTableDefinitions::size))]
fn size(tokens: &[Token], least: u16, most: u16) -> Option<(u16, &[Token])>
    ensures { option_map (λ x. (x.0, kinds x.1.now)) result ≡ spec.size least most (kinds tokens.now) }
{
    match tokens {
        [first, rest @ ..] => Some((size_of(&first.kind, least, most)?, rest)),
        [] => None,
    }
}

fn size_of(kind: &Kind, least: u16, most: u16) -> Option<u16>
    ensures { result ≡ spec.size_of least most kind.now }
{
    match kind {
        Kind::Number(number) => within(*number, least, most),
        _ => None,
    }
}

fn within(number: i64, least: u16, most: u16) -> Option<u16>
    ensures { result ≡ spec.within least most number }
{
    if number < i64::from(least) || i64::from(most) < number {
        return None;
    }
    Some(number as u16)
}
