//! Makes calls of the outside, in memory and of the machine. The cases are lines of standard input; each is written
//! again, and behind it what was answered. Lines that are empty or begin with `#` are written and
//! ask nothing.
//!
//! A case is the name of an object, what it is made of, `:` and its calls, with `;` between them. The
//! numbers of the calls that are to fail stand in the place FAIL, with commas between them, or `-`:
//!
//! - `source TEXT PIECE FAIL: ..`: each call is `take`
//! - `sink PIECE FAIL: ..`: each call is `give TEXT`
//! - `link TEXT PIECE FAIL FAIL: ..`: calls of both, with the failing ones of each, and `shut`
//! - `lobby TEXTS FAIL: ..`: a link of each of the texts, with commas between them, or none for `-`;
//!   `open`; `next`; `take`, `give TEXT` and `finish`, each of the last link that came and is out
//! - `disk FAIL: ..`: `write PLACE TEXT`, `cut SIZE`, `sync`, `read PLACE`, of the area A or the one
//!   that `on AREA` named last; a write and a cut ask for the size first, which is a call too
//! - `clock NEXT STEP: ..`: each call is `now`
//! - `files: ..`: the real files: `write AREA PLACE TEXT`, `cut AREA SIZE`, `sync AREA`, `size AREA`,
//!   `read AREA PLACE`; `other AREA`, its size as another disk has it; `text FILE`, `mode FILE` and
//!   `remove FILE`
//! - `reader TEXT: ..`: a reader of the system, each call is `take`; `writer ROOM: ..`: a writer of it,
//!   each call is `give TEXT`; `printed: TEXT`: standard output; `century:`: whether its clock reads a
//!   moment of this century
//! - `port: ..`: a port of this machine: `open`, `other` (another lobby opens it), `next`, `take`, `give TEXT`,
//!   `shut` and `finish`, of the last link; and what a peer does: `connect`, `say TEXT`, `hear`, `end`
#![tactic(auto)]

mod answer;
mod desk;
mod disk;
mod fault;
mod files;
mod links;
mod port;
mod streams;
mod words;

use std::io;

fn main(rt: HostRuntime) -> io::Result<()> {
    for line in rt.lines(rt.alloc()) {
        let line = line?;
        println!(rt; "{line}")?;
        if !line.is_empty() && !line.starts_with('#') {
            print!(rt; "{}", answer::answer(rt, &line)?)?;
        }
    }
    Ok(())
}
