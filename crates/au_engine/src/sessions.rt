//! The list of sessions.
ghost use Rattle.std.specs.Prelude.{◌≡◌, ◌≤◌, ◌==◌, IfOk, filter, map, not, position, vec_len, vec_capacity};
ghost use Rattle.std.specs.Option.{option_copied};
ghost use Rattle.au_base.specs.Limits.{INSTANCE_SESSIONS};
ghost use Rattle.au_step.specs.Step.{counted, counting, with_more};
ghost use Rattle.au_engine.specs.Prepared.{drawn_after};
ghost use Rattle.au_engine.specs.Sessions.{AreApart, counted_by, forgotten, found_in, is_of, with_counts};

use crate::outcome::SessionChange;
use au_base::limits::SESSION_COUNT;
use au_base::{ClientNo, List, Memory, Name};
use au_recording::forget;
use au_step::Session;
use std::alloc::Global;

/// The client's session.
pub(crate) fn session_of(sessions: &[Session], client: ClientNo) -> Option<&Session>
    ensures { option_copied result ≡ found_in sessions.now client }
{
    sessions.iter().find(|session| session.client.0 == client.0)
}

/// One more, up to the number at which the counts of a session stop.
pub(crate) fn counted(count: u32) -> u32
    ensures { result ≡ counted count }
{
    count.saturating_add(1).min(SESSION_COUNT)
}

/// How many records the session has after so many more.
pub(crate) fn entries_after(entries: u32, more: usize) -> u32
    ensures { result ≡ with_more entries more }
{
    let all = u64::from(entries).saturating_add(more as u64);
    all.min(u64::from(SESSION_COUNT)) as u32
}

/// The users of the sessions.
pub(crate) fn users_of(alloc: Global, sessions: &[Session]) -> Result<List<Name>, Memory>
    ensures { IfOk result (λ users. users ≡ map (λ session. session.user) sessions.now) }
{
    let mut users = List::new(alloc);
    for session in sessions {
        users.push(session.user.clone()?)?;
    }
    Ok(users)
}

/// How many sessions the instance has drawn after the change.
pub(crate) fn drawn_after(change: &SessionChange, drawn: u32) -> u32
    requires { drawn_after change.now drawn ≤ INSTANCE_SESSIONS }
    ensures { result ≡ drawn_after change.now drawn }
{
    match change {
        SessionChange::Begins(_) => drawn + 1,
        SessionChange::Nothing | SessionChange::Counts { .. } | SessionChange::Ends(_) => drawn,
    }
}

/// Ends the client's session. It takes no memory.
pub(crate) fn end_session(sessions: &mut Vec<Session>, client: ClientNo)
    ensures items { sessions.new.items ≡ filter (λ session. not (session.client.0 == client.0)) sessions.old.items }
    ensures len { vec_len sessions.new ≤ vec_len sessions.old }
    ensures capacity { vec_capacity sessions.new ≡ vec_capacity sessions.old }
{
    sessions.retain(|session| session.client.0 != client.0);
}

/// Gives the client's session these counts and results. All others forget the results of the
/// policies. It takes no memory.
pub(crate) fn count(
    sessions: &mut Vec<Session>,
    client: ClientNo,
    statements: u32,
    entries: u32,
    results: List<(Name, bool)>,
    forgets: List<Name>,
)
    requires apart { AreApart sessions.old.items }
    ensures items { sessions.new.items ≡ map (counted_by client statements entries results forgets) sessions.old.items }
    ensures len { vec_len sessions.new ≡ vec_len sessions.old }
    ensures capacity { vec_capacity sessions.new ≡ vec_capacity sessions.old }
{
    forget_in_all(sessions, forgets.as_slice());
    set_counts(sessions, client, statements, entries, results);
}

// All sessions forget the results of the policies. Where there are none, no session is gone over.
fn forget_in_all(sessions: &mut Vec<Session>, forgets: &[Name])
    ensures items { sessions.new.items ≡ map (forgotten forgets.now) sessions.old.items }
    ensures len { vec_len sessions.new ≡ vec_len sessions.old }
    ensures capacity { vec_capacity sessions.new ≡ vec_capacity sessions.old }
{
    if forgets.is_empty() {
        return;
    }
    forget_in_each(sessions, forgets);
}

// Goes over the sessions, each of which forgets the results of the policies.
fn forget_in_each(sessions: &mut Vec<Session>, forgets: &[Name])
    ensures items { sessions.new.items ≡ map (forgotten forgets.now) sessions.old.items }
    ensures len { vec_len sessions.new ≡ vec_len sessions.old }
    ensures capacity { vec_capacity sessions.new ≡ vec_capacity sessions.old }
{
    for place in 0..sessions.len() {
        forget_in(&mut sessions[place], forgets);
    }
}

fn forget_in(session: &mut Session, forgets: &[Name])
    ensures { session.new ≡ forgotten forgets.now session.old }
{
    forget(&mut session.results, forgets);
}

// Gives the client's session these counts and results.
fn set_counts(
    sessions: &mut Vec<Session>,
    client: ClientNo,
    statements: u32,
    entries: u32,
    results: List<(Name, bool)>,
)
    requires apart { AreApart sessions.old.items }
    ensures items { sessions.new.items ≡ map (with_counts client statements entries results) sessions.old.items }
    ensures len { vec_len sessions.new ≡ vec_len sessions.old }
    ensures capacity { vec_capacity sessions.new ≡ vec_capacity sessions.old }
{
    match place_of(sessions.as_slice(), client) {
        None => {}
        Some(place) => set_counts_of(&mut sessions[place], statements, entries, results),
    }
}

fn place_of(sessions: &[Session], client: ClientNo) -> Option<usize>
    ensures { result ≡ position (is_of client) sessions.now }
{
    sessions
        .iter()
        .position(|session| session.client.0 == client.0)
}

fn set_counts_of(session: &mut Session, statements: u32, entries: u32, results: List<(Name, bool)>)
    ensures { session.new ≡ counting statements entries results session.old }
{
    session.statements = statements;
    session.entries = entries;
    session.results = results;
}
