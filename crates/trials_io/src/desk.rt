//! A lobby, and the links of it that are out.
ghost use Rattle.std.specs.Prelude.{◌+◌, ◌≤◌, length};
ghost use Rattle.au_io.specs.MemLobby.{lobby_visits};

use crate::fault::Fault;
use au_io::{Lobby, MemLink, MemLobby, Next, Opened};
use std::alloc::Global;

/// A lobby, and the links that came and weren't finished. The last that came is finished first.
#[derive(Drop)]
pub struct Desk {
    lobby: MemLobby,
    out: Vec<MemLink>,
    ghost within: { length (lobby_visits lobby).finished + length out.items ≤ (lobby_visits lobby).handed },
}

impl Desk {
    /// A lobby of which no link is out.
    pub fn new(alloc: Global, lobby: MemLobby) -> Desk {
        Desk {
            lobby,
            out: Vec::new(alloc),
        }
    }

    /// Opens the lobby.
    pub fn open(&mut self) -> Opened {
        self.lobby.open(8080)
    }

    /// Asks for the next link, which then is out.
    pub fn next(&mut self) -> Result<Next<()>, Fault> {
        match self.lobby.next() {
            Next::Link(link) => {
                self.out.push(link)?;
                Ok(Next::Link(()))
            }
            Next::Closed => Ok(Next::Closed),
            Next::Failed => Ok(Next::Failed),
        }
    }

    /// The last link that came and is out.
    pub fn last(&mut self) -> Result<&mut MemLink, Fault> {
        self.out.last_mut().ok_or(Fault::NoCase)
    }

    /// Finishes the last link that came and is out.
    pub fn finish(&mut self) -> Result<(), Fault> {
        let link = self.out.pop().ok_or(Fault::NoCase)?;
        self.lobby.finish(link);
        Ok(())
    }

    /// The links that were finished, in order.
    pub fn finished(&self) -> &[MemLink] {
        self.lobby.finished()
    }
}
