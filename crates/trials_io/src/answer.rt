//! What the objects answer.

use crate::disk::disk_lines;
use crate::fault::Fault;
use crate::files::files_line;
use crate::links::{link_line, lobby_lines, sink_line, source_line};
use crate::port::port_line;
use crate::streams::{century_line, printed_line, reader_line, writer_line};
use crate::words::{first_word, number};
use au_io::{Clock, MemClock};
use std::alloc::Global;

/// What is answered to a case, in lines that begin with two spaces.
pub fn answer(rt: HostRuntime, case: &str) -> Result<String, Fault> {
    let alloc = rt.alloc();
    let (made, calls) = case.split_once(':').ok_or(Fault::NoCase)?;
    let (object, parts) = first_word(made);
    match object {
        "source" => source_line(alloc, parts, calls),
        "sink" => sink_line(alloc, parts, calls),
        "link" => link_line(alloc, parts, calls),
        "lobby" => lobby_lines(alloc, parts, calls),
        "disk" => disk_lines(alloc, parts, calls),
        "clock" => clock_line(alloc, parts, calls),
        _ => real_answer(rt, object, parts, calls),
    }
}

// What the real outside answers.
fn real_answer(rt: HostRuntime, object: &str, parts: &str, calls: &str) -> Result<String, Fault> {
    match object {
        "files" => files_line(rt, calls),
        "reader" => reader_line(rt.alloc(), parts, calls),
        "writer" => writer_line(rt.alloc(), parts, calls),
        "printed" => printed_line(rt, calls),
        "century" => century_line(rt),
        "port" => port_line(rt, calls),
        _ => Err(Fault::NoCase),
    }
}

fn clock_line(alloc: Global, parts: &str, calls: &str) -> Result<String, Fault> {
    let (next, step) = first_word(parts);
    let mut clock = MemClock {
        next: number(next)?,
        step: number(step)?,
    };
    let mut line = String::new(alloc);
    for _ in calls.split(';') {
        line.push_str(&format!(in alloc; "  {}", clock.now())?)?;
    }
    line.push('\n')?;
    Ok(line)
}
