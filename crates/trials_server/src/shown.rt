//! What came of a step, as lines that two spaces begin.

use au_main::Status;
use au_session::Ended;
use trials_lines::Fault;

// How each response begins.
const BEGIN: &str = "HTTP/1.1 ";

/// Adds the text of the end, and the exit status. That all was done has no text.
pub fn push_end(said: &mut String, status: Status) -> Result<(), Fault> {
    let number = status.number();
    match status {
        Status::Done => writeln!(said, "  no text, exit {number}")?,
        _ => writeln!(said, "  {status}, exit {number}")?,
    }
    Ok(())
}

/// Adds why a connection ended.
pub fn push_ended(said: &mut String, ended: Ended) -> Result<(), Fault> {
    writeln!(said, "  {ended:?}")?;
    Ok(())
}

/// Adds the lines of a text.
pub fn push_lines(said: &mut String, given: &[u8]) -> Result<(), Fault> {
    for line in text_of(given)?.lines() {
        writeln!(said, "  {line}")?;
    }
    Ok(())
}

/// Adds the responses that a connection was given, each a line.
pub fn push_responses(said: &mut String, given: &[u8]) -> Result<(), Fault> {
    let mut parts = text_of(given)?.split(BEGIN);
    let front = parts.next().unwrap_or("");
    if !front.is_empty() {
        push_response(said, "", front)?;
    }
    for part in parts {
        push_response(said, BEGIN, part)?;
    }
    Ok(())
}

// Adds a response, with `\r\n` in place of CR LF.
fn push_response(said: &mut String, begin: &str, response: &str) -> Result<(), Fault> {
    let mut lines = response.split("\r\n");
    write!(said, "  {begin}{}", lines.next().unwrap_or(""))?;
    for line in lines {
        write!(said, "\\r\\n{line}")?;
    }
    said.push('\n')?;
    Ok(())
}

fn text_of(bytes: &[u8]) -> Result<&str, Fault> {
    str::from_utf8(bytes).map_err(|_| Fault::NoCase)
}
