//! Bytes from and to a connection.
ghost use Rattle.std.specs.Prelude.{OnOk, OnErr, IfErr};
ghost use Rattle.au_session.specs.Session.{told_of};
ghost use Rattle.au_session.specs.descent.Calls.{IsGiven, IsGivenInPart, IsTaken, IsUntaken};

use crate::ended::Ended;
use au_io::{Gave, Link, Took};

/// The connection failed.
#[derive(Clone, Copy, Debug, PartialEq, Eq)]
pub(crate) struct LinkFault;

// How many bytes are asked for at once.
const ROOM: usize = 4_096;

/// Takes the next bytes of the connection to the end of the buffer, or says why it ends.
pub(crate) fn take_more<K: Link>(link: &mut K, buffer: &mut Vec<u8>) -> Result<(), Ended>
    ensures ok { OnOk result (IsTaken buffer.old.items buffer.new.items (told_of K.left K.taken K.given K.faults link.old) (told_of K.left K.taken K.given K.faults link.new)) }
    ensures err { IfErr result (IsUntaken buffer.old.items (told_of K.left K.taken K.given K.faults link.old) (told_of K.left K.taken K.given K.faults link.new)) }
{
    let mut room = [0u8; ROOM];
    match link.take(&mut room) {
        Took::Bytes(count) => match buffer.extend_from_slice(&room[..count]) {
            Ok(()) => Ok(()),
            Err(_) => Err(Ended::Memory),
        },
        Took::End if buffer.is_empty() => Err(Ended::Closed),
        Took::End => Err(Ended::Cut),
        Took::Failed => Err(Ended::LinkFault),
    }
}

/// Gives all the bytes. Where the connection fails, a front of them was given.
pub(crate) fn give_all<K: Link>(link: &mut K, bytes: &[u8]) -> Result<(), LinkFault>
    ensures ok { OnOk result (IsGiven bytes.now (told_of K.left K.taken K.given K.faults link.old) (told_of K.left K.taken K.given K.faults link.new)) }
    ensures err { OnErr result (IsGivenInPart bytes.now (told_of K.left K.taken K.given K.faults link.old) (told_of K.left K.taken K.given K.faults link.new)) }
{
    let mut rest = bytes;
    while !rest.is_empty() {
        match link.give(rest) {
            Gave::Bytes(count) => rest = rest.split_at(count).1,
            Gave::Failed => return Err(LinkFault),
        }
    }
    Ok(())
}
