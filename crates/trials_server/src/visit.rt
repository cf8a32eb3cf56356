//! What a connection sends.

use crate::words::{first_word, numbers};
use std::alloc::Global;
use trials_lines::{Fault, number};

/// A text that is sent once the connections together were given `after` responses, and the lobby was asked
/// `asked` times for a connection. Then it lingers until the lobby was asked `lingers` times, or for a
/// while. An empty text is the end.
#[derive(Drop)]
pub struct Part {
    pub after: u64,
    pub asked: u64,
    pub lingers: u64,
    pub text: String,
}

impl Part {
    // Adds to its text, or sets how long it lingers.
    fn add(&mut self, word: &str, rest: &str) -> Result<(), Fault> {
        match word {
            "linger" => self.lingers = number(rest)?,
            _ => return push_sent(&mut self.text, word, rest),
        }
        Ok(())
    }
}

/// What a connection sends, and when it comes and fails.
#[derive(Drop)]
pub struct Visit {
    /// It comes once this number of connections were shut.
    pub comes: u64,
    pub parts: Vec<Part>,
    /// The takes and the gives that fail.
    pub takes: Vec<u64>,
    pub gives: Vec<u64>,
}

impl Visit {
    /// A connection that sends nothing.
    pub fn new(alloc: Global, comes: u64) -> Visit {
        Visit {
            comes,
            parts: Vec::new(alloc),
            takes: Vec::new(alloc),
            gives: Vec::new(alloc),
        }
    }

    /// Sets the calls that fail.
    pub fn fail(&mut self, alloc: Global, calls: &str) -> Result<(), Fault> {
        let (takes, gives) = first_word(calls);
        self.takes = numbers(alloc, takes)?;
        self.gives = numbers(alloc, gives)?;
        Ok(())
    }

    /// Adds what it sends, or what that waits for.
    pub fn add(&mut self, alloc: Global, word: &str, rest: &str) -> Result<(), Fault> {
        match word {
            "after" => return self.wait(alloc, number(rest)?, 0),
            "asked" => return self.wait(alloc, 0, number(rest)?),
            _ if self.parts.is_empty() => self.wait(alloc, 0, 0)?,
            _ => {}
        }
        match self.parts.last_mut() {
            Some(part) => part.add(word, rest),
            None => Err(Fault::NoCase),
        }
    }

    fn wait(&mut self, alloc: Global, after: u64, asked: u64) -> Result<(), Fault> {
        let text = String::new(alloc);
        self.parts.push(Part {
            after,
            asked,
            lingers: 0,
            text,
        })?;
        Ok(())
    }

    /// All that it sends.
    pub fn text(&self, alloc: Global) -> Result<String, Fault> {
        let mut text = String::new(alloc);
        for part in &self.parts {
            text.push_str(&part.text)?;
        }
        Ok(text)
    }
}

fn push_sent(text: &mut String, word: &str, rest: &str) -> Result<(), Fault> {
    match word {
        "ask" => push_request(text, rest),
        "head" => Ok(write!(text, "{rest}\r\n")?),
        "raw" => Ok(text.push_str(rest)?),
        _ => Err(Fault::NoCase),
    }
}

fn push_request(text: &mut String, parts: &str) -> Result<(), Fault> {
    let (path, body) = first_word(parts);
    let length = body.len();
    write!(text, "POST {path} HTTP/1.1\r\nHost: a\r\n")?;
    write!(text, "Content-Length: {length}\r\n\r\n{body}")?;
    Ok(())
}
