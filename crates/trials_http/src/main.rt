//! Reads requests and lines of scripts, and writes what is answered. The cases are lines of standard
//! input: the name of a call and what it is given. Each is written again, and behind it what came. Lines
//! that are empty or begin with `#` are written and ask nothing.
//!
//! - `request BYTES`: what the bytes of a connection need: `more`, `bad STATUS`, or `got`, how many of
//!   them it took, the ask, and `keep` or `close`
//! - `fronts BYTES`: how many of the bytes' fronts that aren't all of them need more
//! - `refusal STATUS`: the bytes of the response
//! - `line BYTES`: what a script's line says: `skipped`, `bad`, or a label and an ask
//! - `labels LABEL ..`: the numbers of the clients with these labels, and how many labels were used
//! - `script SAID`, `json SAID`: the text of what is said, as scripts and as responses give it
//! - `faults`: the texts of the three faults
//! - `reply CODE|COUNT|COLUMNS|ROWS`: the text of a reply: columns have commas between them, rows
//!   semicolons, and cells commas
//! - `response ASK|SAID|CLOSE`: the bytes of the response, where ASK is `local`, `logon` (of ann, with the
//!   password pw), `sql` (COMMIT) or `logoff`, and CLOSE is `close` or `keep`
//!
//! SAID is `code N`, `columns COLUMNS` (with code 0), `disk`, `full NEEDED LIMIT` or `memory`. An ask's texts stand in brackets. In bytes
//! and texts `\r`, `\n`, `\t` and `\xHH` stand for a byte, and `\N{PART}` for the part N times.
#![tactic(auto)]

mod answer;
mod escapes;
mod replies;
mod requests;
mod scripts;

use std::io;
use trials_lines::Fault;

fn main(rt: HostRuntime) -> io::Result<()> {
    for line in rt.lines(rt.alloc()) {
        let line = line?;
        println!(rt; "{line}")?;
        if line.is_empty() || line.starts_with('#') {
            continue;
        }
        match answer::answer(rt.alloc(), line.as_str()) {
            Ok(text) => println!(rt; "  {text}")?,
            Err(Fault::Memory) => println!(rt; "  out of memory")?,
            Err(Fault::NoCase) => println!(rt; "  no such case")?,
        }
    }
    Ok(())
}
