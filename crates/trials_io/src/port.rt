//! A port of this machine, and a peer that connects to it.

use crate::fault::Fault;
use crate::links::{said_given, said_opened, said_shut, said_taken, text_of};
use crate::words::first_word;
use au_io::{Lobby, Next, TcpLink, TcpLobby};
use std::io::{self, Read, Write};
use std::net::{Ipv4Addr, Shutdown, SocketAddr, TcpListener, TcpStream};

// A lobby, a port that was free, and the last link and the last peer, where there are some.
#[derive(Drop)]
struct Port {
    lobby: TcpLobby,
    address: SocketAddr,
    link: Option<TcpLink>,
    peer: Option<TcpStream>,
}

/// What the lobby, its link and the peer answer.
pub fn port_line(rt: HostRuntime, calls: &str) -> Result<String, Fault> {
    let address = free_address(rt).map_err(|_| Fault::NoCase)?;
    let mut port = Port {
        lobby: TcpLobby::new(rt),
        address,
        link: None,
        peer: None,
    };
    let mut line = String::new(rt.alloc());
    for call in calls.split(';') {
        line.push_str(&said_call(rt, &mut port, call.trim())?)?;
    }
    line.push('\n')?;
    Ok(line)
}

// An address of this machine with a port that the system found free.
fn free_address(rt: HostRuntime) -> io::Result<SocketAddr> {
    let any = SocketAddr::from((Ipv4Addr::LOCALHOST, 0));
    TcpListener::bind(&rt, any)?.local_addr()
}

fn said_call(rt: HostRuntime, port: &mut Port, call: &str) -> Result<String, Fault> {
    let alloc = rt.alloc();
    match first_word(call) {
        ("open", _) => said_opened(alloc, port.lobby.open(port.address.port())),
        ("other", _) => said_opened(alloc, TcpLobby::new(rt).open(port.address.port())),
        ("next", _) => next(rt, port),
        ("take", _) => said_taken(alloc, port.link.as_mut().ok_or(Fault::NoCase)?),
        ("give", text) => {
            let link = port.link.as_mut().ok_or(Fault::NoCase)?;
            said_given(alloc, link, text.as_bytes())
        }
        ("shut", _) => said_shut(alloc, port.link.as_mut().ok_or(Fault::NoCase)?),
        ("finish", _) => finish(rt, port),
        ("connect", _) => connect(rt, port),
        (call, text) => said_peer(rt, port.peer.as_mut().ok_or(Fault::NoCase)?, call, text),
    }
}

fn next(rt: HostRuntime, port: &mut Port) -> Result<String, Fault> {
    match port.lobby.next() {
        Next::Link(link) => {
            port.link = Some(link);
            Ok(format!(in rt.alloc(); "  link")?)
        }
        Next::Closed => Ok(format!(in rt.alloc(); "  closed")?),
        Next::Failed => Ok(format!(in rt.alloc(); "  failed")?),
    }
}

fn finish(rt: HostRuntime, port: &mut Port) -> Result<String, Fault> {
    let link = port.link.take().ok_or(Fault::NoCase)?;
    port.lobby.finish(link);
    Ok(format!(in rt.alloc(); "  finished")?)
}

fn connect(rt: HostRuntime, port: &mut Port) -> Result<String, Fault> {
    match TcpStream::connect(&rt, port.address) {
        Ok(peer) => {
            port.peer = Some(peer);
            Ok(format!(in rt.alloc(); "  connected")?)
        }
        Err(_) => Ok(format!(in rt.alloc(); "  no peer")?),
    }
}

// What the peer is answered that says a text, hears at most eight bytes, or says that it has said all.
fn said_peer(
    rt: HostRuntime,
    peer: &mut TcpStream,
    call: &str,
    text: &str,
) -> Result<String, Fault> {
    let mut room = [0u8; 8];
    match call {
        "say" => said_count(rt, peer.write(text.as_bytes())),
        "hear" => match peer.read(&mut room) {
            Ok(count) => Ok(format!(in rt.alloc(); "  [{}]", text_of(&room[..count]))?),
            Err(_) => Ok(format!(in rt.alloc(); "  failed")?),
        },
        "end" => said_count(rt, peer.shutdown(Shutdown::Write).map(|()| 0)),
        _ => Err(Fault::NoCase),
    }
}

fn said_count(rt: HostRuntime, answer: io::Result<usize>) -> Result<String, Fault> {
    match answer {
        Ok(count) => Ok(format!(in rt.alloc(); "  {count}")?),
        Err(_) => Ok(format!(in rt.alloc(); "  failed")?),
    }
}
