//! What is said, and the responses that say it.

use crate::escapes::escaped;
use au_base::{Ask, Cell, Code, List, Reply, Said, Text};
use au_http::{DISK_FAULT, FULL_FAULT, MEMORY_FAULT, reply_json};
use std::alloc::Global;
use std::str;
use trials_lines::{Fault, cells, number};

/// What is said, as a line writes it.
pub fn said_of(alloc: Global, written: &str) -> Result<Said, Fault> {
    let (word, rest) = written.split_once(' ').unwrap_or((written, ""));
    match word {
        "code" => Ok(replied(code_of(rest)?, List::new(alloc), List::new(alloc))),
        "columns" => Ok(replied(Code(0), columns(alloc, rest)?, List::new(alloc))),
        "disk" => Ok(Said::Disk),
        "full" => full(rest),
        "memory" => Ok(Said::Memory),
        _ => Err(Fault::NoCase),
    }
}

fn code_of(written: &str) -> Result<Code, Fault> {
    Ok(Code(written.parse().map_err(|_| Fault::NoCase)?))
}

fn replied(code: Code, columns: List<Text>, rows: List<List<Cell>>) -> Said {
    Said::Replied(Reply {
        code,
        columns,
        count: 0,
        rows,
    })
}

fn full(written: &str) -> Result<Said, Fault> {
    let (needed, limit) = written.split_once(' ').ok_or(Fault::NoCase)?;
    Ok(Said::Full {
        needed: number(needed)?,
        limit: number(limit)?,
    })
}

/// The texts of the three faults.
pub fn faults(alloc: Global) -> Result<String, Fault> {
    Ok(format!(in alloc; "{DISK_FAULT} {FULL_FAULT} {MEMORY_FAULT}")?)
}

/// The text of a reply.
pub fn reply(alloc: Global, bytes: &[u8]) -> Result<String, Fault> {
    let written = str::from_utf8(bytes).map_err(|_| Fault::NoCase)?;
    let reply = reply_of(alloc, written)?;
    escaped(alloc, reply_json(alloc, &reply)?.as_str())
}

fn reply_of(alloc: Global, written: &str) -> Result<Reply, Fault> {
    let columns = columns(alloc, field(written, 2))?;
    let rows = rows(alloc, field(written, 3))?;
    Ok(Reply {
        code: code_of(field(written, 0))?,
        columns,
        count: number(field(written, 1))?,
        rows,
    })
}

fn field(written: &str, place: usize) -> &str {
    written.split('|').nth(place).unwrap_or("")
}

fn columns(alloc: Global, written: &str) -> Result<List<Text>, Fault> {
    let mut listed = List::new(alloc);
    if written.is_empty() {
        return Ok(listed);
    }
    for part in written.split(',') {
        listed.push(Text::from_str(alloc, part)?)?;
    }
    Ok(listed)
}

fn rows(alloc: Global, written: &str) -> Result<List<List<Cell>>, Fault> {
    let mut listed = List::new(alloc);
    for part in written.split(';') {
        listed.push(cells(alloc, part)?)?;
    }
    Ok(listed)
}

/// The bytes of the response to an ask.
pub fn response(alloc: Global, written: &str) -> Result<String, Fault> {
    let ask = ask_of(alloc, field(written, 0))?;
    let said = said_of(alloc, field(written, 1))?;
    let bytes = au_http::response(alloc, &ask, &said, field(written, 2) == "close")?;
    escaped(alloc, str::from_utf8(&bytes).map_err(|_| Fault::NoCase)?)
}

fn ask_of(alloc: Global, written: &str) -> Result<Ask, Fault> {
    match written {
        "local" => Ok(Ask::Local),
        "logon" => logon(alloc),
        "sql" => Ok(Ask::Sql(Text::from_str(alloc, "COMMIT")?)),
        "logoff" => Ok(Ask::Logoff),
        _ => Err(Fault::NoCase),
    }
}

fn logon(alloc: Global) -> Result<Ask, Fault> {
    let user = Text::from_str(alloc, "ann")?;
    let password = Text::from_str(alloc, "pw")?;
    Ok(Ask::Logon { user, password })
}
