//! The texts that a line writes in short, and texts that are shown.

use crate::fault::Fault;
use std::alloc::Global;

/// The text in which `\n`, `\r` and `\t` are written out.
pub fn plain(alloc: Global, text: &str) -> Result<String, Fault> {
    let mut written = String::new(alloc);
    push_plain(&mut written, text)?;
    Ok(written)
}

/// So many times `#`, and the text behind.
pub fn long(alloc: Global, count: u64, rest: &str) -> Result<String, Fault> {
    let mut written = String::new(alloc);
    for _time in 0..count {
        written.push('#')?;
    }
    push_plain(&mut written, rest)?;
    Ok(written)
}

fn push_plain(written: &mut String, text: &str) -> Result<(), Fault> {
    let mut parts = text.split('\\');
    if let Some(first) = parts.next() {
        written.push_str(first)?;
    }
    for part in parts {
        let (character, rest) = escaped(part)?;
        written.push(character)?;
        written.push_str(rest)?;
    }
    Ok(())
}

// The character that stands behind a backslash, and the text behind it.
fn escaped(part: &str) -> Result<(char, &str), Fault> {
    if let Some(rest) = part.strip_prefix('n') {
        return Ok(('\n', rest));
    }
    if let Some(rest) = part.strip_prefix('r') {
        return Ok(('\r', rest));
    }
    let rest = part.strip_prefix('t').ok_or(Fault::NoCase)?;
    Ok(('\t', rest))
}

/// Adds the lines of the text, each with two spaces before it. If no LF ends the last one, `no LF`
/// follows.
pub fn push_indented(said: &mut String, text: &str) -> Result<(), Fault> {
    for line in text.lines() {
        writeln!(said, "  {line}")?;
    }
    if !text.is_empty() && !text.ends_with('\n') {
        said.push_str("  no LF\n")?;
    }
    Ok(())
}

/// Adds the lines of the text, with that between them.
pub fn push_joined(said: &mut String, text: &str, between: &str) -> Result<(), Fault> {
    let mut is_first = true;
    for line in text.lines() {
        push_between(said, is_first, between)?;
        said.push_str(line)?;
        is_first = false;
    }
    Ok(())
}

/// Adds what stands between the parts of a list, unless this part is the first.
pub fn push_between(said: &mut String, is_first: bool, between: &str) -> Result<(), Fault> {
    if !is_first {
        said.push_str(between)?;
    }
    Ok(())
}
