//! The trees of conditions, read again from their texts.
ghost use Rattle.std.specs.Prelude.{◌≡◌, ◌++◌, ◌∷◌, ◌<◌, ◌^◌, [], IfOk, OnOk, length, map};
ghost use Rattle.std.specs.List.{AllByRecursion};
ghost use Rattle.au_catalog.specs.Settling.{condition_texts, texts_in};
ghost use Rattle.au_replay.specs.Reading.{HasShortText, conditions};

use au_base::{Memory, Text};
use au_entries::Change;
use sql_ast::Expr;
use sql_parse::condition;
use std::alloc::Global;

/// The trees of the conditions that the changes hold, in their order: what the texts are read as, NULL
/// where a text isn't a condition. It takes as long as the texts are.
pub fn trees_of(alloc: Global, changes: &[Change]) -> Result<Vec<Expr>, Memory>
    requires short { AllByRecursion HasShortText changes.now }
    ensures { IfOk result (λ trees. trees.items ≡ map conditions.tree (condition_texts changes.now)) }
{
    let mut trees = Vec::new(alloc);
    for change in changes {
        push_tree(alloc, &mut trees, change)?;
    }
    Ok(trees)
}

// Adds the tree of the change's condition, where it has one.
fn push_tree(alloc: Global, trees: &mut Vec<Expr>, change: &Change) -> Result<(), Memory>
    requires short { HasShortText change.now }
    ensures { OnOk result (trees.new.items ≡ trees.old.items ++ map conditions.tree (texts_in change.now)) }
{
    match change {
        Change::Policy { when, .. } => match when {
            Some((_, text)) => push_read(alloc, trees, text),
            None => Ok(()),
        },
        Change::Fga { condition, .. } => match condition {
            Some(text) => push_read(alloc, trees, text),
            None => Ok(()),
        },
        _ => Ok(()),
    }
}

fn push_read(alloc: Global, trees: &mut Vec<Expr>, text: &Text) -> Result<(), Memory>
    requires short { length text.now < 2 ^ 32 }
    ensures { OnOk result (trees.new.items ≡ trees.old.items ++ conditions.tree text.now ∷ []) }
{
    let tree = tree_of(alloc, text)?;
    trees.push(tree)?;
    Ok(())
}

// The tree that the text is read as, NULL where it isn't a condition.
fn tree_of(alloc: Global, text: &Text) -> Result<Expr, Memory>
    requires short { length text.now < 2 ^ 32 }
    ensures { IfOk result (λ tree. tree ≡ conditions.tree text.now) }
{
    match condition(alloc, text.as_bytes())? {
        Some(tree) => Ok(tree),
        None => Ok(Expr::Null),
    }
}
