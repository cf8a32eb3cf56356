//! Expressions by their names. A case `resolve|EXPRESSION` is tried over T, whose columns are the
//! numbers K and N, the text A and the moment M, and over its row 1, NULL, 'a' and the moment
//! 1,000,000, in the session 1,000,000,001 of SYS. It answers the code, the cell or the truth.

use au_base::{Cell, Code, Column, List, SessionNo, Stamp, Truth};
use au_expr::{ExprKind, Resolved, Row, Scope, SessionFacts, resolve, truth, value};
use sql_ast::Expr;
use std::alloc::Global;
use trials_lines::{Fault, cell_text, cells, columns, name, said};

/// What comes of a case.
pub fn answers(alloc: Global, case: &str) -> Result<String, Fault> {
    let (_, text) = case.split_once('|').ok_or(Fault::NoCase)?;
    let expr = expression(alloc, text)?;
    over_table(alloc, &expr)
}

// What comes of an expression over the table.
fn over_table(alloc: Global, expr: &Expr) -> Result<String, Fault> {
    let columns = columns(alloc, "K NUMBER,N NUMBER,A TEXT,M MOMENT")?;
    let scope = scope(alloc, columns)?;
    in_scope(alloc, expr, &scope)
}

fn in_scope(alloc: Global, expr: &Expr, scope: &Scope) -> Result<String, Fault> {
    let resolved = resolve(alloc, expr, scope)?;
    match &resolved {
        Err(code) => code_text(alloc, *code),
        Ok(resolved) => over_row(alloc, resolved),
    }
}

fn over_row(alloc: Global, resolved: &Resolved) -> Result<String, Fault> {
    let cells = cells(alloc, "1,NULL,'a',@1000000")?;
    given(alloc, resolved, cells.as_slice())
}

// The expression that a text is.
fn expression(alloc: Global, text: &str) -> Result<Expr, Fault> {
    if text.len() > 32_767 {
        return Err(Fault::NoCase);
    }
    sql_parse::condition(alloc, text.as_bytes())?.ok_or(Fault::NoCase)
}

fn scope(alloc: Global, columns: List<Column>) -> Result<Scope, Fault> {
    let mut ranges = List::new(alloc);
    ranges.push((name(alloc, "T")?, columns))?;
    Ok(Scope { ranges })
}

// What it gives over a row.
fn given(alloc: Global, resolved: &Resolved, cells: &[Cell]) -> Result<String, Fault> {
    let mut row = Row::new();
    row.push(cells);
    let user = name(alloc, "SYS")?;
    let session = SessionFacts::new(alloc, user, SessionNo(1_000_000_001), Stamp(1_000_000))?;
    match resolved.kind() {
        ExprKind::Truth => match truth(resolved, &row, &session) {
            Ok(truth) => truth_text(alloc, truth),
            Err(code) => code_text(alloc, code),
        },
        _ => match value(resolved, &row, &session)? {
            Ok(cell) => cell_text(alloc, &cell),
            Err(code) => code_text(alloc, code),
        },
    }
}

fn truth_text(alloc: Global, truth: Truth) -> Result<String, Fault> {
    match truth {
        Truth::No => said(alloc, "No"),
        Truth::Unknown => said(alloc, "Unknown"),
        Truth::Yes => said(alloc, "Yes"),
    }
}

fn code_text(alloc: Global, code: Code) -> Result<String, Fault> {
    let number = code.0;
    Ok(format!(in alloc; "{number}")?)
}
