//! Cells, truths, patterns, numbers, lists and boxes.

use crate::case::{Case, said, word_of};
use au_base::{Boxed, Cell, List, Memory, Text, Truth, add, compare, like, multiply, subtract};
use std::alloc::Global;
use std::cmp::Ordering;

/// What a call on values gives, if the case is one.
pub fn tried(alloc: Global, case: &Case<'_>) -> Result<Option<String>, Memory> {
    match case.call {
        "compare" => Ok(Some(compared(alloc, case.given.as_slice())?)),
        "sound" => said(alloc, sound(alloc, case.text(0))?),
        "cell of text" => said(alloc, cell_of_text(alloc, case.text(0))?),
        "truths" => said(alloc, truths(alloc, case)?.as_str()),
        "not" => said(alloc, word(truth(case.text(0)).not())),
        "truth of" => said(alloc, word(Truth::from(case.text(0) == "true"))),
        "like" => said(alloc, is_like(alloc, case.text(0), case.text(1))?),
        "numbers" => Ok(Some(numbers(alloc, case)?)),
        "list" => Ok(Some(listed(alloc, case.given.as_slice())?)),
        "boxed" => Ok(Some(boxed(alloc, case.number(0))?)),
        _ => Ok(None),
    }
}

// A cell: `null`, a number, `'` and a text, or `@` and a moment.
fn cell(alloc: Global, given: &str) -> Result<Cell, Memory> {
    if let Some(text) = given.strip_prefix('\'') {
        return Ok(Cell::Text(Text::from_str(alloc, text)?));
    }
    if let Some(moment) = given.strip_prefix('@') {
        return Ok(Cell::Moment(moment.parse::<u64>().unwrap_or(0)));
    }
    match given.parse::<i64>() {
        Ok(number) => Ok(Cell::Num(number)),
        Err(_) => Ok(Cell::Null),
    }
}

// A row of signs for each cell: how it stands to each of the cells, and `.` where it doesn't compare.
fn compared(alloc: Global, given: &[&str]) -> Result<String, Memory> {
    let mut cells = Vec::new(alloc);
    for text in given {
        cells.push(cell(alloc, text)?)?;
    }
    let mut rows = String::new(alloc);
    for a in cells.iter() {
        for b in cells.iter() {
            rows.push(sign(compare(a, b)))?;
        }
        rows.push_str(word_of(a.clone()? == *a, " ", " changed "))?;
    }
    Ok(rows)
}

fn sign(order: Option<Ordering>) -> char {
    match order {
        Some(Ordering::Less) => '<',
        Some(Ordering::Equal) => '=',
        Some(Ordering::Greater) => '>',
        None => '.',
    }
}

fn sound(alloc: Global, given: &str) -> Result<&'static str, Memory> {
    Ok(word_of(cell(alloc, given)?.is_sound(), "yes", "no"))
}

fn cell_of_text(alloc: Global, given: &str) -> Result<&'static str, Memory> {
    match Cell::from_text(Text::from_str(alloc, given)?) {
        Cell::Null => Ok("null"),
        Cell::Text(text) => Ok(word_of(text.as_str() == given, "the text", "another text")),
        _ => Ok("no text"),
    }
}

fn truth(given: &str) -> Truth {
    match given {
        "yes" => Truth::Yes,
        "no" => Truth::No,
        _ => Truth::Unknown,
    }
}

fn word(truth: Truth) -> &'static str {
    match truth {
        Truth::Yes => "yes",
        Truth::No => "no",
        Truth::Unknown => "unknown",
    }
}

fn truths(alloc: Global, case: &Case<'_>) -> Result<String, Memory> {
    let (a, b) = (truth(case.text(0)), truth(case.text(1)));
    let (and, or) = (word(a.and(b)), word(a.or(b)));
    Ok(format!(in alloc; "and {and}, or {or}")?)
}

fn is_like(alloc: Global, text: &str, pattern: &str) -> Result<&'static str, Memory> {
    let text = Text::from_str(alloc, text)?;
    let pattern = Text::from_str(alloc, pattern)?;
    Ok(word_of(like(&text, &pattern), "yes", "no"))
}

fn shown(alloc: Global, number: Option<i64>) -> Result<String, Memory> {
    match number {
        Some(number) => Ok(format!(in alloc; "{number}")?),
        None => Ok(String::from_str(alloc, "too wide")?),
    }
}

fn numbers(alloc: Global, case: &Case<'_>) -> Result<String, Memory> {
    let a = case.text(0).parse::<i64>().unwrap_or(0);
    let b = case.text(1).parse::<i64>().unwrap_or(0);
    let sum = shown(alloc, add(a, b))?;
    let difference = shown(alloc, subtract(a, b))?;
    let product = shown(alloc, multiply(a, b))?;
    Ok(format!(in alloc; "sum {sum}, difference {difference}, product {product}")?)
}

// The elements of a list that is empty at first, of its copy, and how many a list of that one's vector has.
fn listed(alloc: Global, given: &[&str]) -> Result<String, Memory> {
    let mut list = List::new(alloc);
    let began = word_of(list.is_empty(), "empty", "not empty");
    for number in given {
        list.push(number.parse::<u32>().unwrap_or(0))?;
    }
    let mut text = format!(in alloc; "{began},")?;
    for number in list.as_slice() {
        text.push_str(format!(in alloc; " {number}")?.as_str())?;
    }
    let copy = list.clone()?;
    let copied = word_of(copy == list, "copied", "changed");
    let (length, elements) = (list.len(), List::from_vec(copy.into_vec()).len());
    text.push_str(format!(in alloc; ", {length}, {copied}, {elements}")?.as_str())?;
    Ok(text)
}

fn boxed(alloc: Global, number: u64) -> Result<String, Memory> {
    let boxed = Boxed::new(alloc, number)?;
    let copied = word_of(boxed.clone()? == boxed, "copied", "changed");
    let seen = *boxed.get();
    let inner = boxed.into_inner();
    Ok(format!(in alloc; "{seen}, {copied}, {inner}")?)
}
