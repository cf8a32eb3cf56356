//! Calls of the system, made again where a signal interrupts them or a peer has left.
ghost use Rattle.std.specs.Prelude.{◌<◌, ◌≤◌, length, IfSome};

use std::fs::File;
use std::io::{ErrorKind, Read, Write};
use std::net::{TcpListener, TcpStream};
use std::os::unix::fs::FileExt;

/// How often a call is made that signals interrupt, or at which a peer has left. Then it has failed.
const TRIES: u32 = 100;

/// Reads once. `None` is a failed read.
pub(crate) fn read_some<R: Read>(reader: &mut R, room: &mut [u8]) -> Option<usize>
    ensures { IfSome result (λ n. n ≤ length room.new) }
{
    for _ in 0..TRIES {
        match reader.read(room) {
            Ok(count) => return Some(count),
            Err(error) => match error.kind() {
                ErrorKind::Interrupted => (),
                _ => return None,
            },
        }
    }
    None
}

/// Reads once at that place. `None` is a failed read.
pub(crate) fn read_some_at(file: &File, at: u64, room: &mut [u8]) -> Option<usize>
    ensures { IfSome result (λ n. n ≤ length room.new) }
{
    for _ in 0..TRIES {
        match file.read_at(room, at) {
            Ok(count) => return Some(count),
            Err(error) => match error.kind() {
                ErrorKind::Interrupted => (),
                _ => return None,
            },
        }
    }
    None
}

/// Writes once. `None` is a failed write, or one that took no byte.
pub(crate) fn write_some<W: Write>(writer: &mut W, bytes: &[u8]) -> Option<usize>
    ensures { IfSome result (λ n. (0 < n) × (n ≤ length bytes.now)) }
{
    for _ in 0..TRIES {
        match writer.write(bytes) {
            Ok(0) => return None,
            Ok(count) => return Some(count),
            Err(error) => match error.kind() {
                ErrorKind::Interrupted => (),
                _ => return None,
            },
        }
    }
    None
}

/// The next connection, which sends what it is given at once. One that its peer has left is passed
/// over. `None` is a failed call, or as many such connections as there are tries.
pub(crate) fn accept_some(listener: &TcpListener) -> Option<TcpStream> {
    for _ in 0..TRIES {
        match listener.accept() {
            Ok((stream, _)) => {
                if stream.set_nodelay(true).is_ok() {
                    return Some(stream);
                }
            }
            Err(error) => match error.kind() {
                ErrorKind::ConnectionAborted => (),
                _ => return None,
            },
        }
    }
    None
}
