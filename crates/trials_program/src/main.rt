//! Tries the program's commands on an outside in memory. Standard input holds lines of three kinds, in
//! parts, each behind the line `=== commands`, `=== crashes` or `=== scripts`. Parts may come in any
//! order, and more than once. All lines are written again, and behind each that asks what came of it.
//! Lines that are empty or begin with `#` ask nothing.
//!
//! The lines of `=== commands`; what they set up lasts until it is set up again:
//!
//! - `blank`: from here on the disk is an empty one; `store`: it is one on which a store was made, whose
//!   SYS has the password `p`
//! - `input TEXT`: from here on the source has this text, in which `\n` stands for LF, `\r` for CR and
//!   `\t` for a tab; `long N TEXT`: it has N times `#`, and the text behind
//! - `pieces N ..`: from here on source and sink take so many bytes a call; a command that is tried is
//!   tried in pieces of each of these sizes
//! - `faults CALL CALL`: from here on this call of the source fails, and this one of the sink, counted
//!   from 0, or none where `-` stands
//! - `try WORD ..`: the command of these words, in which `''` is the empty word, on a copy of the disk,
//!   by the call that is handed a lobby; `do WORD ..`: the same on the disk itself, in pieces of the first
//!   size; `alone WORD ..`: what `try` does, by the call that takes no lobby; the first word isn't `serve`.
//!   What comes is how it ended, with its exit status, how often the clock was read, and what was given,
//!   line by line
//! - `scribble AT DIGITS`: these bytes are written at that place of area A; `cut SIZE`: the area has that
//!   size from here on; `read AT COUNT`: so many of its bytes from that place on
//! - `end NAME`: the text of an end, and its exit status
//!
//! Commands of the other parts are done by the call that takes no lobby. A line of `=== crashes` is the
//! numbers of the disk's calls that are to fail, with commas between them, or `-`, then `:` and steps,
//! with `;` between them. `L..H` makes them once for each number from L to H, and `N+L..H` once for each
//! of these that comes so long after the call N, which fails too. The steps:
//!
//! - `init`, `init LIMIT`: makes a store, whose journal has that limit; the answer is how that ends
//! - `run ASK ..`: a script of these asks of one client: `local`, `logoff`, `audit` (AUDIT POLICY P_ALL),
//!   `noaudit`, `policy` (P, for COMMIT), `enable` (AUDIT POLICY P), `create` (table T), `insert1` and
//!   `insert2` (a row each), `commit`, `rollback`, `purge` (of the whole trail), `archive` (the archive
//!   timestamp is now), `clean` (of what is before it), `wrong` (a purge with a bad argument), `count`
//!   (of the trail), `rows` (of T). The answers are `ok`, the count, `46250`, `disk` or `full`, and
//!   behind them how often the clock was read; where the run ends otherwise than done, how
//! - `open`: a run without an ask; the answer is how it ends
//! - `check`: its lines, with commas between them
//! - `letter`: the byte that Head reads, as a number
//! - `crash PICK`: the disk is from here on its image of that pick, which fails no more
//! - `grow N`: the frames behind the start of the first run are written so many times more, as if their
//!   statements had been asked again at the same moments; the answer is the size of area A
//! - `images`: what a run counts on each image, the records of the trail, and behind a comma the rows of
//!   T where it stands. The images are what was synced, what reads, and what was written since filled
//!   with 42, 5a and a5; `none` where no store stands there
//!
//! `=== scripts` holds scripts of several users, each behind a line that begins it:
//!
//! - `## new FIRST STEP`: a store is made whose SYS has the password `p`, and the script is run on it
//!   with a clock whose first reading, at the opening, is FIRST, and each other one STEP later
//! - `## again FIRST STEP`: the script is run with such a clock on the store that the one before it left
//! - `## frame BODY`: a frame is appended to the journal of that store, whose body has the bytes that these
//!   hexadecimal digits spell; blanks may part them. Only empty lines and comments follow it
//!
//! A line `FIRST to LAST LINE` of a script stands for many, which are asked in order: the line once for
//! each of these numbers, in place of each `#`. Of answers to one line those that are the same and follow
//! each other stand once, behind how many they are. Behind a script stands how its run ended, where that
//! isn't that all was done.
#![tactic(auto)]

mod asks;
mod bench;
mod case;
mod ends;
mod fault;
mod frame;
mod outside;
mod script;
mod series;
mod setting;
mod steps;
mod texts;
mod trials;
mod words;

use std::io;
use std::sync::Wait;
use std::thread::Threads;
use trials::Trials;

fn main(rt: HostRuntime) -> io::Result<()> {
    let mut trials = Trials::new(rt.alloc())?;
    answer_all(&rt, &mut trials)
}

fn answer_all<R: Threads + Wait + Sync + Input + Print + AllocGlobal>(
    rt: &R,
    trials: &mut Trials,
) -> io::Result<()> {
    for line in rt.lines(rt.alloc()) {
        answer(rt, trials, &line?)?;
    }
    let mut said = String::new(rt.alloc());
    trials.end(rt.alloc(), &mut said)?;
    print!(rt; "{said}")
}

// Prints the line and what comes of it, up to a fault.
fn answer<R: Threads + Wait + Sync + Print + AllocGlobal>(
    rt: &R,
    trials: &mut Trials,
    line: &str,
) -> io::Result<()> {
    let mut said = String::new(rt.alloc());
    let answered = trials.answer(rt, rt.alloc(), line, &mut said);
    print!(rt; "{said}")?;
    Ok(answered?)
}
