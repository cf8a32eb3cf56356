//! Cases, and what the readers make of their texts.
ghost use Rattle.std.specs.Prelude.{◌≤◌, IfOk, length};

use crate::escapes::unescaped;
use crate::fault::Fault;
use au_base::Code;
use sql_ast::Expr;
use sql_lex::{LexFault, Token, tokens};
use sql_parse::{condition, row_statement};
use sql_parse_admin::read;
use std::alloc::Global;
use std::fmt::Debug;

/// What the call of a case answers, in lines that begin with two spaces.
pub fn answer(alloc: Global, case: &str) -> Result<String, Fault> {
    let (call, written) = case.split_once(' ').unwrap_or((case, ""));
    match call {
        "tokens" => token_lines(alloc, &unescaped(alloc, written)?),
        "same_tokens" => same_tokens_line(alloc, written),
        "condition" => condition_line(alloc, &unescaped(alloc, written)?),
        "same_condition" => same_condition_line(alloc, written),
        "row_statement" => row_statement_line(alloc, &unescaped(alloc, written)?),
        "read" => statement_line(alloc, &unescaped(alloc, written)?),
        _ => Err(Fault::NoCase),
    }
}

fn token_lines(alloc: Global, text: &[u8]) -> Result<String, Fault>
    requires { length text.now ≤ 1_000_000 }
{
    let tokens = match tokens(alloc, text)? {
        Ok(tokens) => tokens,
        Err(fault) => return stuck_line(alloc, fault),
    };
    if tokens.is_empty() {
        return none_line(alloc);
    }
    let mut lines = String::new(alloc);
    for token in tokens {
        let line = format!(in alloc; "  {}-{} {:?}\n", token.from, token.to, token.kind)?;
        lines.push_str(&line)?;
    }
    Ok(lines)
}

fn condition_line(alloc: Global, text: &[u8]) -> Result<String, Fault>
    requires { length text.now ≤ 1_000_000 }
{
    let tree = condition(alloc, text)?;
    found_line(alloc, &tree)
}

fn row_statement_line(alloc: Global, text: &[u8]) -> Result<String, Fault>
    requires { length text.now ≤ 1_000_000 }
{
    match tokens(alloc, text)? {
        Ok(tokens) => row_tree_line(alloc, &tokens),
        Err(fault) => stuck_line(alloc, fault),
    }
}

fn row_tree_line(alloc: Global, tokens: &[Token]) -> Result<String, Fault> {
    let tree = row_statement(alloc, tokens)?;
    found_line(alloc, &tree)
}

fn found_line<T: Debug>(alloc: Global, tree: &Option<T>) -> Result<String, Fault> {
    match tree {
        Some(tree) => tree_line(alloc, tree),
        None => none_line(alloc),
    }
}

fn statement_line(alloc: Global, text: &[u8]) -> Result<String, Fault> {
    let read = read(alloc, text)?;
    read_line(alloc, &read)
}

fn read_line<T: Debug>(alloc: Global, read: &Result<T, Code>) -> Result<String, Fault> {
    match read {
        Ok(tree) => tree_line(alloc, tree),
        Err(code) => code_line(alloc, *code),
    }
}

fn same_tokens_line(alloc: Global, written: &str) -> Result<String, Fault> {
    let (left, right) = two_texts(alloc, written)?;
    match (tokens(alloc, &left)?, tokens(alloc, &right)?) {
        (Ok(left), Ok(right)) => same_line(alloc, have_same_kinds(&left, &right)),
        _ => none_line(alloc),
    }
}

// Whether the tokens are the same, at any places.
fn have_same_kinds(left: &[Token], right: &[Token]) -> bool {
    let left = left.iter().map(|token| &token.kind);
    left.eq(right.iter().map(|token| &token.kind))
}

fn same_condition_line(alloc: Global, written: &str) -> Result<String, Fault> {
    let (left, right) = two_texts(alloc, written)?;
    same_trees_line(alloc, &left, &right)
}

fn same_trees_line(alloc: Global, left: &[u8], right: &[u8]) -> Result<String, Fault>
    requires left { length left.now ≤ 1_000_000 }
    requires right { length right.now ≤ 1_000_000 }
{
    match condition(alloc, left)? {
        Some(tree) => same_as_line(alloc, &tree, right),
        None => none_line(alloc),
    }
}

fn same_as_line(alloc: Global, tree: &Expr, text: &[u8]) -> Result<String, Fault>
    requires { length text.now ≤ 1_000_000 }
{
    match condition(alloc, text)? {
        Some(other) => copied_line(alloc, tree, &other),
        None => none_line(alloc),
    }
}

// Says whether a copy of the tree is the other one.
fn copied_line(alloc: Global, tree: &Expr, other: &Expr) -> Result<String, Fault> {
    let copy = tree.clone()?;
    same_line(alloc, copy == *other)
}

// The two texts of a case.
fn two_texts(alloc: Global, written: &str) -> Result<(Vec<u8>, Vec<u8>), Fault>
    ensures { IfOk result (λ texts. (length texts.0.items ≤ 1_000_000) × (length texts.1.items ≤ 1_000_000)) }
{
    match written.split_once(" | ") {
        Some((left, right)) => Ok((unescaped(alloc, left)?, unescaped(alloc, right)?)),
        None => Err(Fault::NoCase),
    }
}

fn tree_line<T: Debug>(alloc: Global, tree: &T) -> Result<String, Fault> {
    Ok(format!(in alloc; "  {tree:?}\n")?)
}

fn stuck_line(alloc: Global, fault: LexFault) -> Result<String, Fault> {
    Ok(format!(in alloc; "  stuck at {}\n", fault.at)?)
}

fn code_line(alloc: Global, code: Code) -> Result<String, Fault> {
    Ok(format!(in alloc; "  {}\n", code.0)?)
}

fn none_line(alloc: Global) -> Result<String, Fault> {
    Ok(format!(in alloc; "  none\n")?)
}

fn same_line(alloc: Global, same: bool) -> Result<String, Fault> {
    Ok(format!(in alloc; "  {}\n", if same { "the same" } else { "not the same" })?)
}
