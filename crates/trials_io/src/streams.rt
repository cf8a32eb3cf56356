//! Readers and writers of the system, and its clock.

use crate::fault::Fault;
use crate::links::{said_given, said_taken};
use crate::words::{first_word, size};
use au_io::{Clock, RealClock, StdSink, StdSource};
use std::alloc::Global;

// 2020-01-01 and 2100-01-01, in microseconds since 1970
const CENTURY: (u64, u64) = (1_577_836_800_000_000, 4_102_444_800_000_000);

/// The pieces that a source over a reader of the text gives.
pub fn reader_line(alloc: Global, text: &str, calls: &str) -> Result<String, Fault> {
    let mut source = StdSource::new(text.as_bytes());
    let mut line = String::new(alloc);
    for _ in calls.split(';') {
        line.push_str(&said_taken(alloc, &mut source)?)?;
    }
    line.push('\n')?;
    Ok(line)
}

/// How many bytes a sink over a writer with so much room takes of each offer.
pub fn writer_line(alloc: Global, room: &str, calls: &str) -> Result<String, Fault> {
    let mut room = vec![in alloc; 0u8; size(room)?]?;
    let mut sink = StdSink::new(room.as_mut_slice());
    let mut line = String::new(alloc);
    for call in calls.split(';') {
        let (_, offered) = first_word(call.trim());
        line.push_str(&said_given(alloc, &mut sink, offered.as_bytes())?)?;
    }
    line.push('\n')?;
    Ok(line)
}

/// Prints the text by a sink over standard output, and says how many bytes that took.
pub fn printed_line(rt: HostRuntime, text: &str) -> Result<String, Fault> {
    let mut sink = StdSink::new(rt.stdout());
    let mut line = said_given(rt.alloc(), &mut sink, text.trim().as_bytes())?;
    line.push('\n')?;
    Ok(line)
}

/// Whether the clock of the system reads a moment of this century.
pub fn century_line(rt: HostRuntime) -> Result<String, Fault> {
    let reading = RealClock::new(rt).now();
    if CENTURY.0 < reading && reading < CENTURY.1 {
        Ok(format!(in rt.alloc(); "  of this century\n")?)
    } else {
        Ok(format!(in rt.alloc(); "  of another century\n")?)
    }
}
