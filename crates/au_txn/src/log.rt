//! The changes of one client.
ghost use Rattle.std.specs.Prelude.{◌≡◌, ◌≢◌, ◌+◌, ◌≤◌, ◌++◌, [], OnOk, filter, not, position, vec_len};
ghost use Rattle.au_base.specs.declared.numbers.ClientNo.{ClientNo as Client};
ghost use Rattle.au_txn.specs.Logs.{changes_of, is_client, room_of};

use crate::RowChange;
use au_base::{ClientNo, Memory};
use std::alloc::Global;
use std::marker::Model;

/// The changes of one client, the oldest first. Contracts see them, and how many more it takes
/// without memory.
#[derive(Drop)]
pub struct Log {
    client: ClientNo,
    changes: Vec<RowChange>,
}

impl Model for Log {
    ghost use Rattle.std.specs.Prelude.{◌-◌, vec_len, vec_capacity};
    ghost use Rattle.au_txn.specs.Logs.{Changes};

    ghost Value = { Changes };

    ghost view = { λ l. record { client = l.client; changes = l.changes.items; spare = vec_capacity l.changes - vec_len l.changes } };
}

impl Log {
    /// No change of this client, with no room for one.
    pub(crate) fn new(alloc: Global, client: ClientNo) -> Self
        ensures client { result.client ≡ client }
        ensures changes { result.changes ≡ [] }
    {
        Log {
            client,
            changes: Vec::new(alloc),
        }
    }

    /// The client whose changes they are.
    pub(crate) fn client(&self) -> ClientNo
        ensures { result ≡ self.now.client }
    {
        self.client
    }

    /// The changes, the oldest first.
    pub(crate) fn changes(&self) -> &[RowChange]
        ensures { result.now ≡ self.now.changes }
    {
        self.changes.as_slice()
    }

    /// Makes room for so many more changes.
    pub(crate) fn reserve(&mut self, more: usize) -> Result<(), Memory>
        ensures ok { OnOk result (more ≤ self.new.spare) }
        ensures client { self.new.client ≡ self.old.client }
        ensures changes { self.new.changes ≡ self.old.changes }
        ensures spare { self.old.spare ≤ self.new.spare }
    {
        self.changes.reserve(more)?;
        Ok(())
    }

    /// Adds changes behind the others. It takes no memory.
    pub(crate) fn append(&mut self, mut changes: Vec<RowChange>)
        requires { vec_len changes ≤ self.old.spare }
        ensures client { self.new.client ≡ self.old.client }
        ensures changes { self.new.changes ≡ self.old.changes ++ changes.items }
        ensures spare { self.old.spare ≤ self.new.spare + vec_len changes }
    {
        if self.changes.append(&mut changes).is_err() {
            unreachable!();
        }
    }

    /// Takes all changes away. It takes no memory.
    pub(crate) fn clear(&mut self)
        ensures client { self.new.client ≡ self.old.client }
        ensures changes { self.new.changes ≡ [] }
        ensures spare { self.old.spare ≤ self.new.spare }
    {
        self.changes.clear();
    }
}

/// The place of the client's list. `None` where it has none.
pub(crate) fn find_log(logs: &[Log], client: ClientNo) -> Option<usize>
    ensures { result ≡ position (is_client client) logs.now }
{
    logs.iter().position(|log| log.client().0 == client.0)
}

/// The client's changes, the oldest first.
pub(crate) fn find_changes(logs: &[Log], client: ClientNo) -> &[RowChange]
    ensures { result.now ≡ changes_of client logs.now }
{
    for log in logs {
        if log.client().0 == client.0 {
            return log.changes();
        }
    }
    &[]
}

/// Makes room for so many more changes of the client. Where there is no memory, the changes are as
/// they were, with no less room.
#[tactic(auto, using(crate::proofs::LogLemmas::log_steps))]
pub(crate) fn reserve_for(
    alloc: Global,
    logs: &mut Vec<Log>,
    client: ClientNo,
    more: usize,
) -> Result<(), Memory>
    ensures ok { OnOk result (more ≤ room_of client logs.new.items) }
    ensures changes { (q : Client) → changes_of q logs.new.items ≡ changes_of q logs.old.items }
    ensures room { (q : Client) → room_of q logs.old.items ≤ room_of q logs.new.items }
{
    match find_log(logs, client) {
        Some(at) => logs[at].reserve(more)?,
        None => {
            let mut log = Log::new(alloc, client);
            log.reserve(more)?;
            logs.push(log)?;
        }
    }
    Ok(())
}

/// Adds changes to the client's. It takes no memory.
#[tactic(auto, using(crate::proofs::LogLemmas::log_steps))]
pub(crate) fn append_for(logs: &mut Vec<Log>, client: ClientNo, changes: Vec<RowChange>)
    requires { vec_len changes ≤ room_of client logs.old.items }
    ensures own { changes_of client logs.new.items ≡ changes_of client logs.old.items ++ changes.items }
    ensures others { (q : Client) → q.0 ≢ client.0 → changes_of q logs.new.items ≡ changes_of q logs.old.items }
    ensures room { room_of client logs.old.items ≤ room_of client logs.new.items + vec_len changes }
    ensures rooms { (q : Client) → q.0 ≢ client.0 → room_of q logs.new.items ≡ room_of q logs.old.items }
{
    if let Some(at) = find_log(logs, client) {
        logs[at].append(changes);
    }
}

/// Takes the client's changes away. It takes no memory.
#[tactic(auto, using(crate::proofs::LogLemmas::log_steps))]
pub(crate) fn clear_for(logs: &mut Vec<Log>, client: ClientNo)
    ensures own { changes_of client logs.new.items ≡ [] }
    ensures others { (q : Client) → q.0 ≢ client.0 → changes_of q logs.new.items ≡ changes_of q logs.old.items }
    ensures room { room_of client logs.old.items ≤ room_of client logs.new.items }
    ensures rooms { (q : Client) → q.0 ≢ client.0 → room_of q logs.new.items ≡ room_of q logs.old.items }
{
    if let Some(at) = find_log(logs, client) {
        logs[at].clear();
    }
}

/// Takes the client's list away. It takes no memory.
pub(crate) fn forget_for(logs: &mut Vec<Log>, client: ClientNo)
    ensures { logs.new.items ≡ filter (λ log. not (is_client client log)) logs.old.items }
{
    logs.retain(|log| log.client().0 != client.0);
}
