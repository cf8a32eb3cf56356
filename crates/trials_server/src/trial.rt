//! What the steps set up, and what comes of the steps that ask.

use crate::guests::{Counts, Guests};
use crate::outside::{Outside, links_of};
use crate::shown::{push_ended, push_responses};
use crate::visit::Visit;
use crate::words::{first_word, numbers};
use au_io::{MemDisk, MemLobby, NoLobby};
use std::alloc::Global;
use std::sync::Wait;
use std::thread::Threads;
use trials_lines::{Fault, number};

/// The outside on which commands are done, and the connections that come.
#[derive(Drop)]
pub struct Trial {
    outside: Outside,
    visits: Vec<Visit>,
    /// The calls of a lobby in memory that fail, and the size of its pieces.
    calls: Vec<u64>,
    piece: u64,
}

impl Trial {
    /// An empty disk, an empty script and no connections.
    pub fn new(alloc: Global) -> Result<Trial, Fault> {
        Ok(Trial {
            outside: Outside::new(alloc)?,
            visits: Vec::new(alloc),
            calls: Vec::new(alloc),
            piece: 4096,
        })
    }

    /// Does what the line says, and adds what comes of it.
    pub fn answer<R: Threads + Wait + Sync>(
        &mut self,
        rt: &R,
        alloc: Global,
        line: &str,
        said: &mut String,
    ) -> Result<(), Fault> {
        let (word, rest) = first_word(line);
        match word {
            "" | "#" => Ok(()),
            "do" => self.do_once(rt, alloc, rest, said),
            "serve" => self.serve(rt, alloc, line, said),
            "session" => self.session(rt, alloc, said),
            "meet" => self.meet(rt, alloc, rest, said),
            "crowd" => self.crowd(rt, alloc, rest, said),
            _ => self.set_up(alloc, word, rest),
        }
    }

    fn set_up(&mut self, alloc: Global, word: &str, rest: &str) -> Result<(), Fault> {
        match word {
            "disk" => self.outside.disk = MemDisk::new(alloc, &numbers(alloc, rest)?)?,
            "script" if rest.is_empty() => self.outside.script.clear(),
            "script" => writeln!(self.outside.script, "{rest}")?,
            "piece" => self.piece = number(rest)?,
            "links" => {
                self.visits.clear();
                self.calls = numbers(alloc, rest)?;
            }
            "link" => self.visits.push(Visit::new(alloc, number(rest)?))?,
            "faults" => return fail_first(alloc, &mut self.visits, rest),
            _ => return add_last(alloc, &mut self.visits, word, rest),
        }
        Ok(())
    }

    fn do_once<R: Threads + Wait + Sync>(
        &mut self,
        rt: &R,
        alloc: Global,
        words: &str,
        said: &mut String,
    ) -> Result<(), Fault> {
        let _lobby = self.outside.command(rt, alloc, words, NoLobby, said)?;
        Ok(())
    }

    // Serves the connections by a lobby in memory.
    fn serve<R: Threads + Wait + Sync>(
        &mut self,
        rt: &R,
        alloc: Global,
        words: &str,
        said: &mut String,
    ) -> Result<(), Fault> {
        let links = links_of(alloc, &self.visits, self.piece as usize)?;
        let lobby = MemLobby::new(alloc, links, &self.calls)?;
        let lobby = self.outside.command(rt, alloc, words, lobby, said)?;
        for link in lobby.finished() {
            said.push_str("  link\n")?;
            push_responses(said, link.sink.given())?;
        }
        Ok(())
    }

    // Serves each connection by a call of its own.
    fn session<R: Wait>(&mut self, rt: &R, alloc: Global, said: &mut String) -> Result<(), Fault> {
        let mut links = links_of(alloc, &self.visits, self.piece as usize)?;
        for link in &mut links {
            let ended = self.outside.session(rt, alloc, link)?;
            push_ended(said, ended)?;
            push_responses(said, link.sink.given())?;
        }
        Ok(())
    }

    // Serves the connections by a lobby in which they wait for each other.
    fn meet<R: Threads + Wait + Sync>(
        &mut self,
        rt: &R,
        alloc: Global,
        options: &str,
        said: &mut String,
    ) -> Result<(), Fault> {
        let counts = Counts::new();
        let words = format!(in alloc; "serve {options}")?;
        let lobby = Guests::new(alloc, &self.visits, &counts);
        let lobby = self.outside.command(rt, alloc, &words, lobby, said)?;
        push_port(said, &lobby)?;
        push_guests(said, &lobby)
    }

    // The same, and adds how many connections were out at once.
    fn crowd<R: Threads + Wait + Sync>(
        &mut self,
        rt: &R,
        alloc: Global,
        options: &str,
        said: &mut String,
    ) -> Result<(), Fault> {
        let counts = Counts::new();
        let words = format!(in alloc; "serve {options}")?;
        let lobby = Guests::new(alloc, &self.visits, &counts);
        let lobby = self.outside.command(rt, alloc, &words, lobby, said)?;
        push_port(said, &lobby)?;
        writeln!(said, "  most at once {}", lobby.most)?;
        push_guests(said, &lobby)
    }
}

// Sets the calls of the first connection that fail.
fn fail_first(alloc: Global, visits: &mut [Visit], calls: &str) -> Result<(), Fault> {
    match visits.first_mut() {
        Some(first) => first.fail(alloc, calls),
        None => Err(Fault::NoCase),
    }
}

// Adds what the last connection sends, or what that waits for.
fn add_last(alloc: Global, visits: &mut [Visit], word: &str, rest: &str) -> Result<(), Fault> {
    match visits.last_mut() {
        Some(last) => last.add(alloc, word, rest),
        None => Err(Fault::NoCase),
    }
}

// Adds the port at which the lobby was opened.
fn push_port(said: &mut String, lobby: &Guests<'_>) -> Result<(), Fault> {
    if let Some(port) = lobby.port {
        writeln!(said, "  port {port}")?;
    }
    Ok(())
}

// Adds what each connection that was finished was given, in the order in which they came.
fn push_guests(said: &mut String, lobby: &Guests<'_>) -> Result<(), Fault> {
    for number in 0..lobby.handed {
        push_guest(said, lobby, number)?;
    }
    Ok(())
}

// Adds what the connection of this number was given, if it was finished.
fn push_guest(said: &mut String, lobby: &Guests<'_>, number: u64) -> Result<(), Fault> {
    for guest in &lobby.finished {
        if guest.number == number {
            writeln!(said, "  link, shut {}", guest.shuts)?;
            push_responses(said, &guest.given)?;
        }
    }
    Ok(())
}
