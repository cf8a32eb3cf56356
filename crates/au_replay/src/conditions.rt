//! Conditions of policies.
ghost use Rattle.std.specs.Prelude.{◌≡◌, ◌≢◌, ◌↔◌, ◌<◌, ◌^◌, IfOk, IsTrue, MatchOption, is_none, None, Some, length};
ghost use Rattle.au_expr.specs.Resolving.{condition_code};
ghost use Rattle.au_replay.specs.Reading.{IsConditionOver, conditions};

use au_base::{Column, List, Memory, Name};
use au_entries::Table;
use au_expr::condition_code;
use sql_ast::Expr;
use sql_parse::condition;
use std::alloc::Global;

/// The tree of a text as the condition of an audit policy: where the text is one condition, and is a
/// truth over no column. `None` exactly where it isn't.
pub fn policy_condition(alloc: Global, text: &[u8]) -> Result<Option<Expr>, Memory>
    requires short { length text.now < 2 ^ 32 }
    ensures { IfOk result (λ found. MatchOption found (¬ IsConditionOver None text.now) (λ tree. IsConditionOver None text.now × (tree ≡ conditions.tree text.now))) }
{
    match condition(alloc, text)? {
        Some(tree) => Ok(if_truth(tree, &[])),
        None => Ok(None),
    }
}

/// The tree of a text as the condition of a fine-grained policy: where the text is one condition,
/// and is a truth over the columns of the policy's table. `None` exactly where it isn't.
pub fn fga_condition(alloc: Global, table: &Table, text: &[u8]) -> Result<Option<Expr>, Memory>
    requires short { length text.now < 2 ^ 32 }
    ensures { IfOk result (λ found. MatchOption found (¬ IsConditionOver (Some table.now) text.now) (λ tree. IsConditionOver (Some table.now) text.now × (tree ≡ conditions.tree text.now))) }
{
    let name = table.name.name.clone()?;
    let columns = table.columns.clone()?;
    match condition(alloc, text)? {
        Some(tree) => Ok(if_truth(tree, &[(name, columns)])),
        None => Ok(None),
    }
}

// The tree, where nothing refuses it as a condition over the ranges.
fn if_truth(tree: Expr, ranges: &[(Name, List<Column>)]) -> Option<Expr>
    ensures { MatchOption result (condition_code ranges.now tree ≢ None) (λ same. (condition_code ranges.now tree ≡ None) × (same ≡ tree)) }
{
    if condition_code(&tree, ranges).is_none() {
        Some(tree)
    } else {
        None
    }
}

// Whether nothing refuses the tree as a condition over the ranges.
fn is_truth(tree: &Expr, ranges: &[(Name, List<Column>)]) -> bool
    ensures { result ≡ is_none (condition_code ranges.now tree.now) }
{
    condition_code(tree, ranges).is_none()
}

/// Whether the text is one condition, and a truth over no column.
pub fn is_policy_condition(alloc: Global, text: &[u8]) -> Result<bool, Memory>
    requires short { length text.now < 2 ^ 32 }
    ensures { IfOk result (λ holds. IsTrue holds ↔ IsConditionOver None text.now) }
{
    match condition(alloc, text)? {
        Some(tree) => Ok(is_truth(&tree, &[])),
        None => Ok(false),
    }
}

/// Whether the text is one condition, and a truth over the columns of the table.
pub fn is_fga_condition(alloc: Global, table: &Table, text: &[u8]) -> Result<bool, Memory>
    requires short { length text.now < 2 ^ 32 }
    ensures { IfOk result (λ holds. IsTrue holds ↔ IsConditionOver (Some table.now) text.now) }
{
    let name = table.name.name.clone()?;
    let columns = table.columns.clone()?;
    match condition(alloc, text)? {
        Some(tree) => Ok(is_truth(&tree, &[(name, columns)])),
        None => Ok(false),
    }
}
