//! Texts as conditions.
ghost use Rattle.std.specs.Prelude.{◌≡◌, ◌<◌, ◌^◌, IfOk, None, Some, length};
ghost use Rattle.au_condition.specs.Reading.{by_code, is_short, read_as, read_over, read_text, read_tree};
ghost use Rattle.au_expr.specs.Resolving.{condition_code};
ghost use Rattle.sql_parse.specs.Trees.{tree_of};

use au_base::{Column, List, Memory, Name, Text};
use au_entries::{Condition, ReadCondition, Table};
use au_expr::{condition_code, is_plain_condition};
use sql_ast::Expr;
use sql_parse::condition;
use std::alloc::Global;

/// How many bytes are too many for a frame to spell.
const TOO_MANY: usize = 1 << 32;

/// What becomes of the text as a condition over no table.
pub fn over_none(alloc: Global, text: &Text) -> Result<ReadCondition, Memory>
    ensures { IfOk result (λ read. read ≡ read_over None text.now) }
{
    read_text(alloc, &[], text)
}

/// What becomes of the text as a condition over the columns of the table.
pub fn over_columns(alloc: Global, table: &Table, text: &Text) -> Result<ReadCondition, Memory>
    ensures { IfOk result (λ read. read ≡ read_over (Some table.now) text.now) }
{
    let name = table.name.name.clone()?;
    let columns = table.columns.clone()?;
    read_text(alloc, &[(name, columns)], text)
}

// What becomes of the text as a condition over the columns of the ranges.
fn read_text(
    alloc: Global,
    ranges: &[(Name, List<Column>)],
    text: &Text,
) -> Result<ReadCondition, Memory>
    ensures { IfOk result (λ read. read ≡ read_text ranges.now text.now) }
{
    if is_short(text) {
        read_short(alloc, ranges, text)
    } else {
        Ok(ReadCondition::Bad)
    }
}

fn is_short(text: &Text) -> bool
    ensures { result ≡ is_short text.now }
{
    text.as_bytes().len() < TOO_MANY
}

fn read_short(
    alloc: Global,
    ranges: &[(Name, List<Column>)],
    text: &Text,
) -> Result<ReadCondition, Memory>
    requires short { length text.now < 2 ^ 32 }
    ensures { IfOk result (λ read. read ≡ read_as ranges.now text.now (tree_of text.now)) }
{
    let copy = text.clone()?;
    let tree = condition(alloc, text.as_bytes())?;
    Ok(read_as(ranges, copy, tree))
}

fn read_as(ranges: &[(Name, List<Column>)], text: Text, tree: Option<Expr>) -> ReadCondition
    ensures { result ≡ read_as ranges.now text tree }
{
    match tree {
        None => ReadCondition::Bad,
        Some(tree) => read_tree(ranges, text, tree),
    }
}

fn read_tree(ranges: &[(Name, List<Column>)], text: Text, tree: Expr) -> ReadCondition
    ensures { result ≡ read_tree ranges.now text tree }
{
    if is_plain_condition(&tree) {
        by_code(ranges, text, tree)
    } else {
        ReadCondition::Bad
    }
}

fn by_code(ranges: &[(Name, List<Column>)], text: Text, tree: Expr) -> ReadCondition
    ensures { result ≡ by_code text tree (condition_code ranges.now tree) }
{
    match condition_code(&tree, ranges) {
        Some(code) => ReadCondition::Wrong(code),
        None => ReadCondition::Tree(Condition { text, tree }),
    }
}
