//! Makes stores on a disk in memory, asks them, shuts them and opens them again. The cases are lines of
//! standard input; each is written again, and behind it what came of it. Lines that are empty or begin
//! with `#` are written and ask nothing.
//!
//! A case is the number of the disk's call that is to fail, or `-`, then `:` and its steps, with `;`
//! between them. `L..H` makes the case once for each number from L to H. The steps:
//!
//! - `make`, `make LIMIT`: makes a store, whose journal has that limit; the answer is how that ends
//! - `open ASK ..`: opens the store with a clock that reads 1,000,000 and then one more each time, asks
//!   it, and shuts it; the answer is `opened` with the answers, or why it isn't opened. The asks of one
//!   client: `local`, `audit` (AUDIT POLICY P_ALL), `one` (1, from DUAL), `count` (of the trail); how
//!   they are answered: `code N`, `number N`, the one number of a row, `disk`, `full N of LIMIT`. And
//!   `stands`: whether the client has a session; `abandon`: its session is ended; `reading`: the last
//!   reading of the clock
//! - `look`: the instance, the count of records and the used length, or why nothing is seen; `look users`:
//!   each user with its verifier in hexadecimal digits, and how many grants of system privileges there are
//! - `size`: the size of area A
//! - `write AT BYTES`: these bytes, as hexadecimal digits, are written over area A there
#![tactic(auto)]

mod asking;
mod case;
mod stores;
mod words;

use std::io;
use trials_lines::Fault;

fn main(rt: HostRuntime) -> io::Result<()> {
    for line in rt.lines(rt.alloc()) {
        answer(&rt, &line?)?;
    }
    Ok(())
}

// Prints the line and what comes of it, up to a fault.
fn answer(rt: &(impl Print + AllocGlobal), line: &str) -> io::Result<()> {
    println!(rt; "{line}")?;
    if line.is_empty() || line.starts_with('#') {
        return Ok(());
    }
    let mut said = String::new(rt.alloc());
    let answered = case::push_case(rt.alloc(), line, &mut said);
    print!(rt; "{said}")?;
    match answered {
        Ok(()) => Ok(()),
        Err(Fault::Memory) => println!(rt; "  out of memory"),
        Err(Fault::NoCase) => println!(rt; "  no such case"),
    }
}
