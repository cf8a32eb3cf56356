//! Tries the asks of the sample: each line of standard input names a case, its fields parted by `|`, and
//! is written again with what came.
//!
//! - `ask|SEED|ROWS|PLACE`: the ask at the place, counted from 0: `local`, a statement's text, or `none`
//! - `counts|SEED|ROWS`: how many asks there are, and how many of them put a row in, commit and roll back
#![tactic(auto)]

mod asking;
mod tally;

use std::io;
use trials_lines::Fault;

fn main(rt: HostRuntime) -> io::Result<()> {
    for line in rt.lines(rt.alloc()) {
        let line = line?;
        if line.is_empty() || line.starts_with('#') {
            println!(rt; "{line}")?;
            continue;
        }
        match asking::answer(rt.alloc(), line.as_str()) {
            Ok(text) => println!(rt; "{line} = {text}")?,
            Err(Fault::Memory) => println!(rt; "{line}: out of memory")?,
            Err(Fault::NoCase) => println!(rt; "{line}: no such case")?,
        }
    }
    Ok(())
}
