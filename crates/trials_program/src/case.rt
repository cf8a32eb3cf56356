//! The part `crashes`: cases of steps on a disk that fails at listed calls.

use crate::fault::Fault;
use crate::steps::push_step;
use crate::texts::push_between;
use crate::words::{number, numbers};
use au_io::MemDisk;
use std::alloc::Global;

/// Adds what comes of a case: a line, or one for each call of a range that is to fail in turn.
pub fn push_case(alloc: Global, case: &str, said: &mut String) -> Result<(), Fault> {
    let (fail, steps) = case.split_once(':').ok_or(Fault::NoCase)?;
    match fail.split_once("..") {
        Some((from, to)) => push_range(alloc, from, to, steps, said),
        None => {
            let fail = numbers(alloc, fail, ',')?;
            said.push_str("  ")?;
            push_steps(alloc, &fail, steps, said)
        }
    }
}

fn push_range(
    alloc: Global,
    from: &str,
    to: &str,
    steps: &str,
    said: &mut String,
) -> Result<(), Fault> {
    let (before, from) = before_range(from)?;
    let (from, to) = (number(from)?, number(to)?);
    for call in from..=to {
        write!(said, "  {call}: ")?;
        match before {
            Some(first) => {
                let fail = [first, first.saturating_add(call)];
                push_steps(alloc, &fail, steps, said)?;
            }
            None => push_steps(alloc, &[call], steps, said)?,
        }
    }
    Ok(())
}

// The call from which a range counts, if the text names one, and the text behind it.
fn before_range(from: &str) -> Result<(Option<u64>, &str), Fault> {
    match from.split_once('+') {
        Some((before, from)) => Ok((Some(number(before)?), from)),
        None => Ok((None, from)),
    }
}

// Adds what comes of the steps on a disk that fails at these calls.
fn push_steps(alloc: Global, fail: &[u64], steps: &str, said: &mut String) -> Result<(), Fault> {
    let mut disk = MemDisk::new(alloc, fail)?;
    push_on_disk(alloc, &mut disk, steps, said)
}

fn push_on_disk(
    alloc: Global,
    disk: &mut MemDisk,
    steps: &str,
    said: &mut String,
) -> Result<(), Fault> {
    let mut is_first = true;
    for step in steps.split(';') {
        push_between(said, is_first, "; ")?;
        push_step(alloc, disk, step.trim(), said)?;
        is_first = false;
    }
    said.push('\n')?;
    Ok(())
}
