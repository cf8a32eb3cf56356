//! A lobby without connections.
ghost use Rattle.std.specs.Prelude.{None, Some, []};

use crate::{Gave, Link, Lobby, Next, Opened, Sink, Source, Stream, Took};

/// A lobby that no connection comes from. Each port is as good as the other.
#[derive(Clone, Copy, Debug, PartialEq, Eq)]
pub struct NoLobby;

/// What would be a connection of a lobby that has none: nothing comes of it, and what is given to
/// it is gone. It tells nothing.
#[derive(Clone, Copy, Debug, PartialEq, Eq)]
pub struct NoLink;

impl Stream for NoLink {
    ghost left = { λ _. None };

    ghost taken = { λ _. None };

    ghost given = { λ _. None };

    ghost faults = { λ _. 0 };
}

impl Source for NoLink {
    ghost plan = { λ _. None };

    fn take(&mut self, _room: &mut [u8]) -> Took {
        Took::End
    }
}

impl Sink for NoLink {
    ghost short = { λ _. 0 };

    ghost plan = { λ _. None };

    fn give(&mut self, bytes: &[u8]) -> Gave {
        Gave::Bytes(bytes.len())
    }
}

impl Link for NoLink {
    fn shut(&mut self) {}
}

impl Lobby for NoLobby {
    type Link = NoLink;

    ghost visits = { λ _. None };

    ghost faults = { λ _. 0 };

    ghost plan = { λ _. None };

    ghost within = { λ _. tt };

    fn open(&mut self, _port: u16) -> Opened {
        Opened::Ready
    }

    fn next(&mut self) -> Next<NoLink> {
        Next::Closed
    }

    fn finish(&mut self, _link: NoLink) {}
}
