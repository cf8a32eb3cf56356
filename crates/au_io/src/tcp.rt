//! Connections of the system.
ghost use Rattle.std.specs.Prelude.{◌≡◌, ◌≤◌, None};
ghost use Rattle.au_io.specs.Faults.{one_more};

use crate::standard_streams::StandardStreams;
use crate::timed_stream::TimedStream;
use crate::tries::accept_some;
use crate::{Gave, Link, Lobby, Next, Opened, Sink, Source, Stream, Took};
use std::net::{Ipv4Addr, SocketAddr, TcpListener};

/// A connection of the system. It tells nothing of its bytes: that they are those of its peer is
/// trusted. A call is one read or write, made again where a signal interrupts it; a write that takes
/// no byte is a fault.
///
/// Its peer has ten minutes for each request, counted from the accept or from the response before
/// it, and ten minutes to take each response. A call that is late is a fault. The time is counted
/// anew where a `take` follows a `give` or a `give` a `take`, and behind a `give` whose bytes were
/// all taken.
#[derive(Drop)]
pub struct TcpLink {
    stream: TimedStream,
    faults: u64,
}

impl Stream for TcpLink {
    ghost left = { λ _. None };

    ghost taken = { λ _. None };

    ghost given = { λ _. None };

    ghost faults = { λ link. link.faults };
}

impl TcpLink {
    fn fail(&mut self)
        ensures counted { self.new.faults ≡ one_more self.old.faults }
        ensures never_falls { self.old.faults ≤ self.new.faults }
    {
        self.faults = self.faults.saturating_add(1);
    }
}

impl Source for TcpLink {
    ghost plan = { λ _. None };

    fn take(&mut self, room: &mut [u8]) -> Took {
        match self.stream.read(room) {
            Some(0) => Took::End,
            Some(count) => Took::Bytes(count),
            None => {
                self.fail();
                Took::Failed
            }
        }
    }
}

impl Sink for TcpLink {
    ghost short = { λ _. 0 };

    ghost plan = { λ _. None };

    fn give(&mut self, bytes: &[u8]) -> Gave {
        match self.stream.write(bytes) {
            Some(count) => Gave::Bytes(count),
            None => {
                self.fail();
                Gave::Failed
            }
        }
    }
}

impl Link for TcpLink {
    fn shut(&mut self) {
        self.stream.shut();
    }
}

/// A port of 127.0.0.1 that peers can connect to, off the places of the standard streams.
#[derive(Drop)]
struct Door {
    _standard_streams: StandardStreams,
    listener: TcpListener,
}

/// The connections to a port of 127.0.0.1. It tells nothing of them: that each is new is trusted. It
/// is never closed. What is given to a connection is sent at once. A connection that is finished is
/// shut. One that its peer has left before it is handed out is passed over, and the next is waited
/// for; a hundred of them in one call are a fault.
#[derive(Drop)]
pub struct TcpLobby {
    rt: HostRuntime,
    door: Option<Door>,
    faults: u64,
}

impl TcpLobby {
    ghost use Rattle.au_io.specs.Real.{tcp_lobby_faults};

    /// A lobby that isn't open yet. Until it is, `next` answers `Failed`.
    pub fn new(rt: HostRuntime) -> TcpLobby
        ensures { tcp_lobby_faults result ≡ 0 }
    {
        TcpLobby {
            rt,
            door: None,
            faults: 0,
        }
    }

    fn fail(&mut self)
        ensures counted { self.new.faults ≡ one_more self.old.faults }
        ensures never_falls { self.old.faults ≤ self.new.faults }
    {
        self.faults = self.faults.saturating_add(1);
    }

    // The next connection.
    fn accept(&self) -> Option<TimedStream> {
        let stream = accept_some(&self.door.as_ref()?.listener)?;
        TimedStream::new(self.rt, stream)
    }
}

impl Door {
    fn open(rt: HostRuntime, port: u16) -> Option<Door> {
        let standard_streams = StandardStreams::hold(rt)?;
        let address = SocketAddr::from((Ipv4Addr::LOCALHOST, port));
        let listener = TcpListener::bind(&rt, address).ok()?;
        Some(Door {
            _standard_streams: standard_streams,
            listener,
        })
    }
}

impl Lobby for TcpLobby {
    type Link = TcpLink;

    ghost visits = { λ _. None };

    ghost faults = { λ lobby. lobby.faults };

    ghost plan = { λ _. None };

    ghost within = { λ _. tt };

    fn open(&mut self, port: u16) -> Opened {
        match Door::open(self.rt, port) {
            Some(door) => {
                self.door = Some(door);
                Opened::Ready
            }
            None => {
                self.fail();
                Opened::Failed
            }
        }
    }

    fn next(&mut self) -> Next<TcpLink> {
        match self.accept() {
            Some(stream) => Next::Link(TcpLink { stream, faults: 0 }),
            None => {
                self.fail();
                Next::Failed
            }
        }
    }

    fn finish(&mut self, _link: TcpLink) {}
}
