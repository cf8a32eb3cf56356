//! Tries the command `serve` on connections in memory. Each line of standard input is a step; it is
//! written again, and behind it what came of it. Empty lines and lines that begin with `#` ask nothing.
//!
//! - `disk CALL,..`: from here on the disk is an empty one, of which these calls fail, counted from 0;
//!   `-` lists none. `script LINE`: the script of `run` has this line more; `script`: it is empty
//! - `links CALL,..`: from here on no connection comes; of a lobby in memory these calls fail.
//!   `piece N`: its connections take and give at most N bytes a call. `faults CALL,.. CALL,..`: these
//!   takes of the first connection fail, and these gives
//! - `link N`: one connection more; where connections meet, it comes once N connections were shut
//! - `after N`: where connections meet, the last connection sends what follows once all connections
//!   together were given N responses; `asked N`: once the lobby was asked N times for a connection. If
//!   nothing follows, the connection ends there. `linger N`: before this it waits for a while, or
//!   until the lobby was asked N times
//! - `ask PATH BODY`: the last connection sends a POST request; `head TEXT`: it sends this text and CR LF;
//!   `raw TEXT`: it sends this text
//! - `do WORD ..`: the command of these words, on a lobby that no connection comes from. What comes is how it
//!   ended, with its exit status, and what was given
//! - `serve WORD ..`: this command, on a lobby in memory that hands out the connections in order. What
//!   comes is how it ended and, for each connection that was finished, the responses that it was given,
//!   in which `\r\n` stands for CR LF
//! - `meet WORD ..`: `serve` on a lobby whose connections wait for each other; the lobby tells the port at
//!   which it was opened, and each connection how often it was shut
//! - `crowd WORD ..`: the same; the lobby also tells the most connections that were out at once
//! - `session`: each connection is served alone, by a call of `serve_session` on the store that the disk
//!   holds. What comes is why it ended, and its responses
//!
//! The clock reads 1,000,000 as a command begins, and then one more each time.
#![tactic(auto)]

mod guests;
mod outside;
mod shown;
mod trial;
mod visit;
mod words;

use std::io;
use std::sync::Wait;
use std::thread::Threads;
use trial::Trial;

fn main(rt: HostRuntime) -> io::Result<()> {
    match Trial::new(rt.alloc()) {
        Ok(mut trial) => answer_all(&rt, &mut trial),
        Err(_) => println!(rt; "no memory"),
    }
}

// Prints each line and what comes of it.
fn answer_all<R: Threads + Wait + Sync + Input + Print + AllocGlobal>(
    rt: &R,
    trial: &mut Trial,
) -> io::Result<()> {
    for line in rt.lines(rt.alloc()) {
        let line = line?;
        let mut said = String::new(rt.alloc());
        let answered = trial.answer(rt, rt.alloc(), &line, &mut said);
        print!(rt; "{line}\n{said}")?;
        if answered.is_err() {
            println!(rt; "  no answer")?;
        }
    }
    Ok(())
}
