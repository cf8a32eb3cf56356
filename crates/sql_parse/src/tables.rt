//! Tables, their aliases, and lists of names.
ghost use Rattle.sql_parse.specs.Symbols.{kinds};
ghost use Rattle.sql_parse.specs.descent.Reading.{Gives};
ghost use Rattle.sql_parse.specs.descent.Reading as reading;
ghost use Rattle.sql_parse.specs.descent.ReadTables as spec;

use crate::cursor::{behind, sees_mark};
use crate::lists::{Part, parted};
use crate::names::name;
use crate::stop::Stop;
use au_base::{List, Name, TableReference};
use sql_ast::AliasedTable;
use sql_lex::{Mark, Token};
use std::alloc::Global;

/// `[name .] name`
#[tactic(auto, unfolding(crate::specs::descent::ReadTables::qualified))]
pub fn qualified(alloc: Global, tokens: &[Token]) -> Result<((Option<Name>, Name), &[Token]), Stop>
    ensures { Gives (λ x. (x.0, kinds x.1.now)) result (spec.qualified (kinds tokens.now)) }
{
    let (first, rest) = name(alloc, tokens)?;
    if !sees_mark(rest, Mark::Period) {
        return Ok(((None, first), rest));
    }
    let (second, rest) = name(alloc, behind(rest))?;
    Ok(((Some(first), second), rest))
}

/// `table = [name .] name`
#[tactic(auto, unfolding(crate::specs::descent::ReadTables::table))]
pub fn table(alloc: Global, tokens: &[Token]) -> Result<(TableReference, &[Token]), Stop>
    ensures { Gives (λ x. (x.0, kinds x.1.now)) result (spec.table (kinds tokens.now)) }
{
    let ((owner, name), rest) = qualified(alloc, tokens)?;
    Ok((TableReference { owner, name }, rest))
}

/// A name, if one comes next.
pub fn alias(alloc: Global, tokens: &[Token]) -> Result<(Option<Name>, &[Token]), Stop>
    ensures { Gives (λ x. (x.0, kinds x.1.now)) result (spec.alias (kinds tokens.now)) }
{
    match name(alloc, tokens) {
        Ok((found, rest)) => Ok((Some(found), rest)),
        Err(Stop::Unread) => Ok((None, tokens)),
        Err(Stop::Memory) => Err(Stop::Memory),
    }
}

/// `tref = table [name]`
#[tactic(auto, unfolding(crate::specs::descent::ReadTables::aliased))]
pub fn aliased(alloc: Global, tokens: &[Token]) -> Result<(AliasedTable, &[Token]), Stop>
    ensures { Gives (λ x. (x.0, kinds x.1.now)) result (spec.aliased (kinds tokens.now)) }
{
    let (table, rest) = table(alloc, tokens)?;
    let (alias, rest) = alias(alloc, rest)?;
    Ok((AliasedTable { table, alias }, rest))
}

/// `name {, name}`
#[tactic(auto, unfolding(crate::specs::descent::ReadTables::names))]
pub fn names(alloc: Global, tokens: &[Token]) -> Result<(List<Name>, &[Token]), Stop>
    ensures { Gives (λ x. (x.0, kinds x.1.now)) result (spec.names (kinds tokens.now)) }
{
    parted(alloc, &NamePart, tokens)
}

struct NamePart;

impl Part for NamePart {
    type Tree = Name;

    ghost reading = { λ _. reading.name };

    fn read<'t>(&self, alloc: Global, tokens: &'t [Token]) -> Result<(Name, &'t [Token]), Stop> {
        name(alloc, tokens)
    }
}
