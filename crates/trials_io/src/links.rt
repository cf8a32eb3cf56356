//! Sources, sinks, links and lobbies in memory.
ghost use Rattle.std.specs.Prelude.{All, IfOk};
ghost use Rattle.au_io.specs.MemLink.{link_told};
ghost use Rattle.au_io.specs.Visits.{IsFresh};

use crate::desk::Desk;
use crate::fault::Fault;
use crate::words::{first_word, numbers, size};
use au_io::{Gave, Link, MemLink, MemLobby, MemSink, MemSource, Next, Opened, Sink, Source, Took};
use std::alloc::Global;

// As many bytes as a call of `take` may give here.
const ROOM: usize = 8;

/// The pieces that the source gives, and how it fails and ends.
pub fn source_line(alloc: Global, parts: &str, calls: &str) -> Result<String, Fault> {
    let (text, parts) = first_word(parts);
    let (piece, fail) = first_word(parts);
    let fail = numbers(alloc, fail)?;
    let mut source = MemSource::new(alloc, text.as_bytes(), size(piece)?, &fail)?;
    let mut line = String::new(alloc);
    for _ in calls.split(';') {
        line.push_str(&said_taken(alloc, &mut source)?)?;
    }
    line.push('\n')?;
    Ok(line)
}

/// How many bytes the sink takes of each offer, then what it was given.
pub fn sink_line(alloc: Global, parts: &str, calls: &str) -> Result<String, Fault> {
    let (piece, fail) = first_word(parts);
    let fail = numbers(alloc, fail)?;
    let mut sink = MemSink::new(alloc, size(piece)?, &fail)?;
    let mut line = String::new(alloc);
    for call in calls.split(';') {
        let (_, offered) = first_word(call.trim());
        line.push_str(&said_given(alloc, &mut sink, offered.as_bytes())?)?;
    }
    line.push_str(&format!(in alloc;
        "  given {}, short {}\n",
        text_of(sink.given()),
        sink.short()
    )?)?;
    Ok(line)
}

/// What both sides of a link answer, then what it was given.
pub fn link_line(alloc: Global, parts: &str, calls: &str) -> Result<String, Fault> {
    let (text, parts) = first_word(parts);
    let (piece, parts) = first_word(parts);
    let (failing_takes, failing_gives) = first_word(parts);
    let failing_takes = numbers(alloc, failing_takes)?;
    let failing_gives = numbers(alloc, failing_gives)?;
    let mut link = MemLink {
        source: MemSource::new(alloc, text.as_bytes(), size(piece)?, &failing_takes)?,
        sink: MemSink::new(alloc, size(piece)?, &failing_gives)?,
    };
    let mut line = String::new(alloc);
    for call in calls.split(';') {
        let said = match first_word(call.trim()) {
            ("take", _) => said_taken(alloc, &mut link)?,
            ("give", offered) => said_given(alloc, &mut link, offered.as_bytes())?,
            ("shut", _) => said_shut(alloc, &mut link)?,
            _ => return Err(Fault::NoCase),
        };
        line.push_str(&said)?;
    }
    line.push_str(&format!(in alloc; "  given {}\n", text_of(link.sink.given()))?)?;
    Ok(line)
}

/// What the lobby and its links answer, then what each link was given that was finished.
pub fn lobby_lines(alloc: Global, parts: &str, calls: &str) -> Result<String, Fault> {
    let (texts, fail) = first_word(parts);
    let fail = numbers(alloc, fail)?;
    let lobby = MemLobby::new(alloc, fresh_links(alloc, texts)?, &fail)?;
    let mut desk = Desk::new(alloc, lobby);
    let mut line = String::new(alloc);
    for call in calls.split(';') {
        line.push_str(&said_call(alloc, &mut desk, call.trim())?)?;
    }
    line.push('\n')?;
    for link in desk.finished() {
        line.push_str(&format!(in alloc; "  given {}\n", text_of(link.sink.given()))?)?;
    }
    Ok(line)
}

fn said_call(alloc: Global, desk: &mut Desk, call: &str) -> Result<String, Fault> {
    match first_word(call) {
        ("open", _) => said_opened(alloc, desk.open()),
        ("next", _) => said_next(alloc, desk.next()?),
        ("take", _) => said_taken(alloc, desk.last()?),
        ("give", offered) => said_given(alloc, desk.last()?, offered.as_bytes()),
        ("finish", _) => {
            desk.finish()?;
            Ok(String::new(alloc))
        }
        _ => Err(Fault::NoCase),
    }
}

// A link of each of the texts, with commas between them. `-` lists none.
fn fresh_links(alloc: Global, texts: &str) -> Result<Vec<MemLink>, Fault>
    ensures { IfOk result (λ links. All (λ link. IsFresh (link_told link)) links.items) }
{
    let mut links = Vec::new(alloc);
    if texts == "-" {
        return Ok(links);
    }
    for text in texts.split(',') {
        links.push(fresh_link(alloc, text)?)?;
    }
    Ok(links)
}

// A link of the text, which gives and takes eight bytes a call at most.
fn fresh_link(alloc: Global, text: &str) -> Result<MemLink, Fault>
    ensures { IfOk result (λ link. IsFresh (link_told link)) }
{
    Ok(MemLink {
        source: MemSource::new(alloc, text.as_bytes(), ROOM, &[])?,
        sink: MemSink::new(alloc, ROOM, &[])?,
    })
}

/// How opening came out.
pub fn said_opened(alloc: Global, answer: Opened) -> Result<String, Fault> {
    match answer {
        Opened::Ready => Ok(format!(in alloc; "  ready")?),
        Opened::Failed => Ok(format!(in alloc; "  failed")?),
    }
}

fn said_next(alloc: Global, came: Next<()>) -> Result<String, Fault> {
    match came {
        Next::Link(()) => Ok(format!(in alloc; "  link")?),
        Next::Closed => Ok(format!(in alloc; "  closed")?),
        Next::Failed => Ok(format!(in alloc; "  failed")?),
    }
}

/// The bytes that it gives, at most eight, or how it fails or ends.
pub fn said_taken<S: Source>(alloc: Global, source: &mut S) -> Result<String, Fault> {
    let mut room = [0u8; ROOM];
    match source.take(&mut room) {
        Took::Bytes(count) => Ok(format!(in alloc; "  {}", text_of(&room[..count]))?),
        Took::End => Ok(format!(in alloc; "  end")?),
        Took::Failed => Ok(format!(in alloc; "  failed")?),
    }
}

/// How many of the bytes it takes, or that it fails.
pub fn said_given<W: Sink>(alloc: Global, sink: &mut W, offered: &[u8]) -> Result<String, Fault> {
    if offered.is_empty() {
        return Err(Fault::NoCase);
    }
    match sink.give(offered) {
        Gave::Bytes(count) => Ok(format!(in alloc; "  {count}")?),
        Gave::Failed => Ok(format!(in alloc; "  failed")?),
    }
}

/// That nothing more is given to it.
pub fn said_shut<L: Link>(alloc: Global, link: &mut L) -> Result<String, Fault> {
    link.shut();
    Ok(format!(in alloc; "  shut")?)
}

/// The bytes as a text.
pub fn text_of(bytes: &[u8]) -> &str {
    str::from_utf8(bytes).unwrap_or("?")
}
