//! Tries calls of single crates that no statement asks so. Each line of standard input is a case, its
//! fields parted by `|`, and is written again with what came. The first field says what is tried:
//!
//! - `resolve|EXPRESSION`: an expression over a row, by its names
//! - `pindex|POLICIES|STATEMENTS|SEED`: the index of audit policies beside the plain filter
//! - `numbers|ENTRY`: the numbers of the records of one event
#![tactic(auto)]

mod drawn;
mod numbers;
mod order;
mod pindex;
mod resolving;

use std::alloc::Global;
use std::io;
use trials_lines::Fault;

// What comes of a line.
fn answer(alloc: Global, case: &str) -> Result<String, Fault> {
    let (tried, _) = case.split_once('|').ok_or(Fault::NoCase)?;
    match tried {
        "resolve" => resolving::answers(alloc, case),
        "pindex" => pindex::answers(alloc, case),
        "numbers" => numbers::answers(alloc, case),
        _ => Err(Fault::NoCase),
    }
}

fn main(rt: HostRuntime) -> io::Result<()> {
    for line in rt.lines(rt.alloc()) {
        let line = line?;
        if line.is_empty() || line.starts_with('#') {
            println!(rt; "{line}")?;
            continue;
        }
        match answer(rt.alloc(), line.as_str()) {
            Ok(text) => println!(rt; "{line} = {text}")?,
            Err(Fault::Memory) => println!(rt; "{line}: out of memory")?,
            Err(Fault::NoCase) => println!(rt; "{line}: no such case")?,
        }
    }
    Ok(())
}
