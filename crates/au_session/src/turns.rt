//! Turns of a client at the store.
ghost use Rattle.std.specs.Prelude.{◌≡◌, ◌≢◌, ◌∷◌, [], List, IsTrue, ◌↔◌, true, false};
ghost use Rattle.au_store.specs.declared.entry.Entry.{Entry};
ghost use Rattle.au_store.specs.declared.entry.Entry.TheVariants as entry;
ghost use Rattle.au_store.specs.History.{StandsFor};
ghost use Rattle.au_turn.specs.Pass.{IsHeld, IsIdle, IsPassOf, WentOnBy, seen};
ghost use Rattle.au_session.specs.Entries.{IsEnding, IsGone, IsReply, Leaves};
ghost use Rattle.au_session.specs.descent.Turns.{IsLoggedOff, IsStillOn, StepsHeld};

use au_base::{Ask, ClientNo, Said};
use au_io::{Clock, Disk};
use au_step::{clients_have_one_session, ends_stay_lawful};
use au_store::{Deed, Store};
use au_turn::{Pass, Turn};
use std::alloc::Global;
use std::sync::Wait;

/// Does what the client asks, in a turn of its own.
pub(crate) fn ask_once<R: Wait, D: Disk, C: Clock>(
    rt: &R,
    alloc: Global,
    turn: &Turn<Store<D, C>>,
    pass: &mut Pass<Store<D, C>>,
    client: ClientNo,
    ask: &Ask,
) -> Said
    requires client { client.0 ≢ 0 }
    requires own { IsPassOf turn.now pass.old }
    requires idle { IsIdle pass.old }
    ensures own { IsPassOf turn.now pass.new }
    ensures idle { IsIdle pass.new }
    ensures went { (came : List Entry) × (made : List Entry) × Leaves client ask.now result made × WentOnBy came made pass.old pass.new }
{
    let store = turn.take(rt, pass);
    answer_held(alloc, turn, pass, store, client, ask)
}

// Answers the client by one step of the store that the pass holds, and gives the store back.
fn answer_held<D: Disk, C: Clock>(
    alloc: Global,
    turn: &Turn<Store<D, C>>,
    pass: &mut Pass<Store<D, C>>,
    store: Store<D, C>,
    client: ClientNo,
    ask: &Ask,
) -> Said
    requires client { client.0 ≢ 0 }
    requires own { IsPassOf turn.now pass.old }
    requires held { IsHeld pass.old }
    requires value { StandsFor D.told D.meaning D.faults store (seen pass.old) }
    ensures own { IsPassOf turn.now pass.new }
    ensures idle { IsIdle pass.new }
    ensures step { StepsHeld client ask.now result store.state pass.old pass.new }
{
    let mut store = store;
    let said = store.answer(alloc, client, ask);
    let deed = Deed::Stepped {
        client,
        ask,
        said: &said,
        reading: store.reading(),
    };
    turn.give_back(pass, store, &deed);
    said
}

/// Ends the client's session, where it has one: by a LOGOFF, and where that isn't replied to by
/// abandoning it.
pub(crate) fn end_session<R: Wait, D: Disk, C: Clock>(
    rt: &R,
    alloc: Global,
    turn: &Turn<Store<D, C>>,
    pass: &mut Pass<Store<D, C>>,
    client: ClientNo,
)
    requires client { client.0 ≢ 0 }
    requires own { IsPassOf turn.now pass.old }
    requires idle { IsIdle pass.old }
    ensures own { IsPassOf turn.now pass.new }
    ensures idle { IsIdle pass.new }
    ensures went { (came : List Entry) × (ending : List Entry) × IsEnding client ending × WentOnBy came ending pass.old pass.new }
    ensures gone { IsGone client (seen pass.new) }
{
    if log_off(rt, alloc, turn, pass, client) {
        return;
    }
    abandon(rt, turn, pass, client);
}

// Logs the client off, where it has a session. Says whether it has none then.
fn log_off<R: Wait, D: Disk, C: Clock>(
    rt: &R,
    alloc: Global,
    turn: &Turn<Store<D, C>>,
    pass: &mut Pass<Store<D, C>>,
    client: ClientNo,
) -> bool
    requires client { client.0 ≢ 0 }
    requires own { IsPassOf turn.now pass.old }
    requires idle { IsIdle pass.old }
    ensures own { IsPassOf turn.now pass.new }
    ensures idle { IsIdle pass.new }
    ensures off { result ≡ true → IsLoggedOff client pass.old pass.new }
    ensures on { result ≡ false → IsStillOn client pass.old pass.new }
{
    clients_have_one_session();
    let store = turn.take(rt, pass);
    if !store.stands(client) {
        turn.give_back(pass, store, &Deed::Nothing);
        return true;
    }
    let said = answer_held(alloc, turn, pass, store, client, &Ask::Logoff);
    is_reply(&said)
}

fn is_reply(said: &Said) -> bool
    ensures { IsTrue result ↔ IsReply said.now }
{
    match said {
        Said::Replied(_) => true,
        Said::Disk | Said::Full { .. } | Said::Memory => false,
    }
}

// Ends the client's session without an answer.
fn abandon<R: Wait, D: Disk, C: Clock>(
    rt: &R,
    turn: &Turn<Store<D, C>>,
    pass: &mut Pass<Store<D, C>>,
    client: ClientNo,
)
    requires own { IsPassOf turn.now pass.old }
    requires idle { IsIdle pass.old }
    ensures own { IsPassOf turn.now pass.new }
    ensures idle { IsIdle pass.new }
    ensures went { (came : List Entry) × WentOnBy came (entry.Abandoned client ∷ []) pass.old pass.new }
    ensures gone { IsGone client (seen pass.new) }
{
    ends_stay_lawful();
    let mut store = turn.take(rt, pass);
    store.abandon(client);
    let deed = Deed::Abandoned(client);
    turn.give_back(pass, store, &deed);
}
