//! Trees of conditions.
ghost use Rattle.std.specs.Prelude.{◌≡◌, ◌↔◌, ◌<◌, ◌^◌, ◌+◌, IfOk, IsOk, IsTrue, OnOk, length, option_to_list};
ghost use Rattle.au_catalog.specs.Settling.{condition_texts, texts_in, when_texts};
ghost use Rattle.au_replay.specs.Reading.{HasShortText, IsShortText, when_text};

use au_base::{TableName, Text, is_same_table};
use au_entries::{Change, Evaluate, Table};
use au_replay::{fga_condition, policy_condition};
use sql_ast::Expr;
use std::alloc::Global;
use trials_lines::Fault;

/// Whether a frame can spell the text of the change's condition, where it has one.
pub fn has_short_text(change: &Change) -> bool
    ensures { IsTrue result ↔ HasShortText change.now }
{
    match change {
        Change::Policy { when, .. } => is_short_when(when),
        Change::Fga { condition, .. } => is_short_condition(condition),
        _ => true,
    }
}

fn is_short_when(when: &Option<(Evaluate, Text)>) -> bool
    ensures { IsTrue result ↔ IsShortText (when_text when.now) }
{
    match when {
        None => true,
        Some(given) => is_short(given.1.as_bytes()),
    }
}

fn is_short_condition(condition: &Option<Text>) -> bool
    ensures { IsTrue result ↔ IsShortText condition.now }
{
    match condition {
        None => true,
        Some(text) => is_short(text.as_bytes()),
    }
}

fn is_short(text: &[u8]) -> bool
    ensures { IsTrue result ↔ (length text.now < 2 ^ 32) }
{
    text.len() <= 4_294_967_295
}

/// The tree of an audit policy's condition, if it is one.
pub fn policy_tree(alloc: Global, text: &[u8]) -> Result<Option<Expr>, Fault> {
    if !is_short(text) {
        return Err(Fault::NoCase);
    }
    Ok(policy_condition(alloc, text)?)
}

/// The tree of a condition of a fine-grained policy on the table, if it is one.
pub fn fga_tree(alloc: Global, table: &Table, text: &[u8]) -> Result<Option<Expr>, Fault> {
    if !is_short(text) {
        return Err(Fault::NoCase);
    }
    Ok(fga_condition(alloc, table, text)?)
}

/// The trees of the changes' conditions, in their order. A fine-grained policy's is over its table
/// among these.
pub fn trees_of(alloc: Global, tables: &[Table], changes: &[Change]) -> Result<Vec<Expr>, Fault>
    ensures { IfOk result (λ trees. length trees.items ≡ length (condition_texts changes.now)) }
{
    let mut trees = Vec::new(alloc);
    let filled = push_trees(alloc, &mut trees, tables, changes);
    if_done(filled, trees)
}

// The value, where what was done for it was done.
fn if_done<T: Drop>(done: Result<(), Fault>, value: T) -> Result<T, Fault>
    ensures done { OnOk result (IsOk done) }
    ensures value { IfOk result (λ kept. kept ≡ value) }
{
    done?;
    Ok(value)
}

// Adds a tree for each text of a condition.
fn push_trees(
    alloc: Global,
    trees: &mut Vec<Expr>,
    tables: &[Table],
    changes: &[Change],
) -> Result<(), Fault>
    ensures { OnOk result (length trees.new.items ≡ length trees.old.items + length (condition_texts changes.now)) }
{
    for change in changes {
        push_tree(alloc, trees, tables, change)?;
    }
    Ok(())
}

fn push_tree(
    alloc: Global,
    trees: &mut Vec<Expr>,
    tables: &[Table],
    change: &Change,
) -> Result<(), Fault>
    ensures { OnOk result (length trees.new.items ≡ length trees.old.items + length (texts_in change.now)) }
{
    match change {
        Change::Policy { when, .. } => push_when(alloc, trees, when),
        Change::Fga {
            table,
            condition,
            ..
        } => push_condition(alloc, trees, tables, table, condition),
        _ => Ok(()),
    }
}

fn push_when(
    alloc: Global,
    trees: &mut Vec<Expr>,
    when: &Option<(Evaluate, Text)>,
) -> Result<(), Fault>
    ensures { OnOk result (length trees.new.items ≡ length trees.old.items + length (when_texts when.now)) }
{
    match when {
        None => Ok(()),
        Some(given) => push_some(trees, policy_tree(alloc, given.1.as_bytes())?),
    }
}

fn push_condition(
    alloc: Global,
    trees: &mut Vec<Expr>,
    tables: &[Table],
    name: &TableName,
    condition: &Option<Text>,
) -> Result<(), Fault>
    ensures { OnOk result (length trees.new.items ≡ length trees.old.items + length (option_to_list condition.now)) }
{
    match condition {
        None => Ok(()),
        Some(text) => push_some(trees, tree_on(alloc, tables, name, text)?),
    }
}

// The tree of the condition over the table of this name.
fn tree_on(
    alloc: Global,
    tables: &[Table],
    name: &TableName,
    text: &Text,
) -> Result<Option<Expr>, Fault> {
    for table in tables {
        if is_same_table(&table.name, name) {
            return fga_tree(alloc, table, text.as_bytes());
        }
    }
    Ok(None)
}

// Adds the tree, which is there.
fn push_some(trees: &mut Vec<Expr>, tree: Option<Expr>) -> Result<(), Fault>
    ensures { OnOk result (length trees.new.items ≡ length trees.old.items + 1) }
{
    match tree {
        None => Err(Fault::NoCase),
        Some(tree) => {
            trees.push(tree)?;
            Ok(())
        }
    }
}
