//! Asks the readers of statements what texts are. The cases are lines of standard input; each is
//! written again, and behind it what was answered. Lines that are empty or begin with `#` are
//! written and ask nothing.
//!
//! A case is the name of a call, a space and a text, or two texts with ` | ` between them:
//!
//! - `tokens TEXT`: the place of each token and what it is, or the place at which none starts
//! - `same_tokens TEXT | TEXT`: whether the texts have the same tokens, at any places
//! - `condition TEXT`: the tree of the condition, if it is one
//! - `same_condition TEXT | TEXT`: whether the texts are conditions with the same tree
//! - `row_statement TEXT`: the tree of the statement that reads or changes rows, if it is one
//! - `read TEXT`: the tree of the statement, or the code of a text that is none
//!
//! In a text `\n`, `\r` and `\t` stand for LF, CR and tab, `\xHH` for the byte of two hexadecimal
//! digits, and `\N{PART}` for PART, N times.
#![tactic(auto)]

mod cases;
mod escapes;
mod fault;

use cases::answer;
use std::io;

fn main(rt: HostRuntime) -> io::Result<()> {
    for line in rt.lines(rt.alloc()) {
        let line = line?;
        println!(rt; "{line}")?;
        if !line.is_empty() && !line.starts_with('#') {
            print!(rt; "{}", answer(rt.alloc(), &line)?)?;
        }
    }
    Ok(())
}
