//! What comes of the steps of a case.

use crate::stores::{look, make, open, push_size, write};
use crate::words::{first_word, limit};
use au_io::MemDisk;
use std::alloc::Global;
use trials_lines::{Fault, number};

/// Adds what comes of a case: a line, or one for each call of a range that is to fail in turn.
pub fn push_case(alloc: Global, case: &str, said: &mut String) -> Result<(), Fault> {
    let (fail, steps) = case.split_once(':').ok_or(Fault::NoCase)?;
    if fail == "-" {
        said.push_str("  ")?;
        return push_steps(alloc, &[], steps, said);
    }
    let (from, to) = fail.split_once("..").unwrap_or((fail, fail));
    for call in number(from)?..=number(to)? {
        write!(said, "  {call}: ")?;
        push_steps(alloc, &[call], steps, said)?;
    }
    Ok(())
}

// Adds what comes of the steps on a disk that fails at these calls.
fn push_steps(alloc: Global, fail: &[u64], steps: &str, said: &mut String) -> Result<(), Fault> {
    let mut disk = MemDisk::new(alloc, fail)?;
    push_on_disk(alloc, &mut disk, steps, said)
}

fn push_on_disk(
    alloc: Global,
    disk: &mut MemDisk,
    steps: &str,
    said: &mut String,
) -> Result<(), Fault> {
    let mut is_first = true;
    for step in steps.split(';') {
        push_between(said, is_first)?;
        push_step(alloc, disk, step.trim(), said)?;
        is_first = false;
    }
    said.push('\n')?;
    Ok(())
}

fn push_between(said: &mut String, is_first: bool) -> Result<(), Fault> {
    if !is_first {
        said.push_str("; ")?;
    }
    Ok(())
}

fn push_step(
    alloc: Global,
    disk: &mut MemDisk,
    step: &str,
    said: &mut String,
) -> Result<(), Fault> {
    let (step, part) = first_word(step);
    match step {
        "make" => make(alloc, disk, limit(part)?, said),
        "open" => open(alloc, disk, part, said),
        "look" => look(alloc, disk, part, said),
        "size" => push_size(disk, said),
        "write" => write(alloc, disk, part, said),
        _ => Err(Fault::NoCase),
    }
}
