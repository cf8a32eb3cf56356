//! Tries the values that every layer speaks of: each line of standard input names a call and what it
//! is given, parted by `|`, and is written again with what came.
#![tactic(auto)]

mod case;
mod catalog;
mod lists;
mod moments;
mod names;
mod order;
mod texts;
mod values;

use au_base::Memory;
use case::Case;
use std::alloc::Global;
use std::io;

// What comes of a line.
fn answer(alloc: Global, line: &str) -> Result<String, Memory> {
    let case = Case::read(alloc, line)?;
    if let Some(text) = texts::tried(alloc, &case)? {
        return Ok(text);
    }
    if let Some(text) = names::tried(alloc, &case)? {
        return Ok(text);
    }
    if let Some(text) = catalog::tried(alloc, &case)? {
        return Ok(text);
    }
    if let Some(text) = values::tried(alloc, &case)? {
        return Ok(text);
    }
    if let Some(text) = moments::tried(alloc, &case)? {
        return Ok(text);
    }
    if let Some(text) = lists::tried(alloc, &case)? {
        return Ok(text);
    }
    if let Some(text) = order::tried(alloc, &case)? {
        return Ok(text);
    }
    Ok(String::from_str(alloc, "no such call")?)
}

fn main(rt: HostRuntime) -> io::Result<()> {
    for line in rt.lines(rt.alloc()) {
        let line = line?;
        if line.is_empty() || line.starts_with('#') {
            println!(rt; "{line}")?;
            continue;
        }
        match answer(rt.alloc(), line.as_str()) {
            Ok(text) => println!(rt; "{line} = {text}")?,
            Err(Memory) => println!(rt; "{line}: out of memory")?,
        }
    }
    Ok(())
}
