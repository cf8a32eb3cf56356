//! Serving one connection.
ghost use Rattle.std.specs.Prelude.{◌≡◌, ◌≢◌, ◌≤◌, [], List, length, drop, OnOk, IfErr};
ghost use Rattle.au_io.specs.Visits.{IsFresh};
ghost use Rattle.au_http.specs.Replies.{said_text};
ghost use Rattle.au_http.specs.Responses.{IsRefusal, refusal_text, response_text, status_of};
ghost use Rattle.au_store.specs.declared.entry.Entry.{Entry};
ghost use Rattle.au_turn.specs.Pass.{IsIdle, IsPassOf, seen};
ghost use Rattle.au_session.specs.Answered.{MayComeBack};
ghost use Rattle.au_session.specs.Entries.{IsEnding, IsGone};
ghost use Rattle.au_session.specs.Session.{Served, told_of};
ghost use Rattle.au_session.specs.descent.Calls.{IsGiven, IsRefusedBy, IsUngiven};

use crate::ended::Ended;
use crate::streams::{LinkFault, give_all, take_more};
use crate::turns::{ask_once, end_session};
use au_base::{Ask, ClientNo, Said};
use au_http::{Need, bad_response, keep_requests, next_request, response};
use au_io::{Clock, Disk, Link};
use au_store::Store;
use au_turn::{Pass, Turn};
use std::alloc::Global;
use std::sync::Wait;

/// Answers the requests of the connection in order, each by one step of the client in a turn of its
/// own. Then it shuts the link and ends the client's session. It returns why it ended, and waits for
/// the peer and for its turns. `Memory` comes where a request or a response found none. A request is
/// read again from its start at each piece of it that comes.
pub fn serve_session<R: Wait, K: Link, D: Disk, C: Clock>(
    rt: &R,
    alloc: Global,
    link: &mut K,
    turn: &Turn<Store<D, C>>,
    pass: &mut Pass<Store<D, C>>,
    client: ClientNo,
) -> Ended
    requires client { client.0 ≢ 0 }
    requires own { IsPassOf turn.now pass.old }
    requires idle { IsIdle pass.old }
    ensures own { IsPassOf turn.now pass.new }
    ensures idle { IsIdle pass.new }
    ensures served { (ending : List Entry) × IsEnding client ending
        × Served client (told_of K.left K.taken K.given K.faults link.old) (told_of K.left K.taken K.given K.faults link.new) pass.old pass.new result ending }
    ensures gone { IsGone client (seen pass.new) }
    ensures back { IsFresh (told_of K.left K.taken K.given K.faults link.old) → MayComeBack result (told_of K.left K.taken K.given K.faults link.new) }
{
    let ended = serve_requests(rt, alloc, link, turn, pass, client);
    // The peer needn't wait for the end of the session.
    link.shut();
    end_session(rt, alloc, turn, pass, client);
    ended
}

fn serve_requests<R: Wait, K: Link, D: Disk, C: Clock>(
    rt: &R,
    alloc: Global,
    link: &mut K,
    turn: &Turn<Store<D, C>>,
    pass: &mut Pass<Store<D, C>>,
    client: ClientNo,
) -> Ended
    requires client { client.0 ≢ 0 }
    requires own { IsPassOf turn.now pass.old }
    requires idle { IsIdle pass.old }
    ensures own { IsPassOf turn.now pass.new }
    ensures idle { IsIdle pass.new }
    ensures served { Served client (told_of K.left K.taken K.given K.faults link.old) (told_of K.left K.taken K.given K.faults link.new) pass.old pass.new result [] }
{
    keep_requests();
    let mut buffer = Vec::new(alloc);
    for _ in rt.forever() {
        let Ok(need) = next_request(alloc, &buffer) else {
            return Ended::Memory;
        };
        match need {
            Need::More => {
                if let Err(ended) = take_more(link, &mut buffer) {
                    return ended;
                }
            }
            Need::Got { used, ask, close } => {
                let said = ask_once(rt, alloc, turn, pass, client, &ask);
                if let Err(ended) = respond(alloc, link, ask, said, close) {
                    return ended;
                }
                if close {
                    return Ended::Closed;
                }
                drop_front(&mut buffer, used);
            }
            Need::Bad(status) => return refuse(link, status),
        }
    }
    unreachable!()
}

// Gives the response to a request. What was asked and what was said is dropped before, since a peer
// may take its time.
fn respond<K: Link>(
    alloc: Global,
    link: &mut K,
    ask: Ask,
    said: Said,
    close: bool,
) -> Result<(), Ended>
    ensures ok { OnOk result (IsGiven (response_text (status_of ask said) close (said_text said)) (told_of K.left K.taken K.given K.faults link.old) (told_of K.left K.taken K.given K.faults link.new)) }
    ensures err { IfErr result (IsUngiven (response_text (status_of ask said) close (said_text said)) (told_of K.left K.taken K.given K.faults link.old) (told_of K.left K.taken K.given K.faults link.new)) }
{
    let text = response(alloc, &ask, &said, close);
    drop(ask);
    drop(said);
    let Ok(text) = text else {
        return Err(Ended::Memory);
    };
    match give_all(link, &text) {
        Ok(()) => Ok(()),
        Err(LinkFault) => Err(Ended::LinkFault),
    }
}

// Gives the refusal of a request.
fn refuse<K: Link>(link: &mut K, status: u16) -> Ended
    requires { IsRefusal status }
    ensures { IsRefusedBy status (refusal_text status) (told_of K.left K.taken K.given K.faults link.old) (told_of K.left K.taken K.given K.faults link.new) result }
{
    match give_all(link, bad_response(status)) {
        Ok(()) => Ended::Refused(status),
        Err(LinkFault) => Ended::LinkFault,
    }
}

// Takes away the first `used` bytes.
fn drop_front(buffer: &mut Vec<u8>, used: usize)
    requires { used ≤ length buffer.old.items }
    ensures { buffer.new.items ≡ drop used buffer.old.items }
{
    buffer.drain(..used);
}
