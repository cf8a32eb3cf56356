//! Steps that are made: what is kept, the transactions and the sessions. None of it takes memory.
ghost use Rattle.std.specs.Prelude.{◌≡◌, ◌≢◌, ◌≤◌, ◌<◌, ◌+◌, List as Sequence, [], None, Option, Some, if◌then◌else◌, ◌==◌, ⊤, length, vec_capacity, vec_len};
ghost use Rattle.au_base.specs.declared.numbers.ClientNo.{ClientNo as Client};
ghost use Rattle.au_entries.specs.declared.change.Change.{Change as AnyChange};
ghost use Rattle.au_entries.specs.Frames.{after_parts};
ghost use Rattle.au_kept.specs.Staging.{CanSettle, Fits, IsLogged, IsStaged};
ghost use Rattle.au_replay.specs.Reading.{conditions};
ghost use Rattle.au_txn.specs.Logs.{changes_of};
ghost use Rattle.au_engine.specs.Inside.{CanKeep, CanWriteNow, CanWriteRows, changes_left, rows_left};
ghost use Rattle.au_engine.specs.Prepared.{IsAlone, LeavesKept, commits_by, commits_of};
ghost use Rattle.au_engine.specs.Sessions.{AreApart, settled_sessions};

use crate::outcome::{RowsChange, SessionChange};
use crate::sessions::{count, end_session};
use au_base::{ClientNo, Stamp};
use au_entries::Record;
use au_kept::{Keeping, Staged};
use au_step::Session;

/// What a step changes of what is kept, ready to be made.
#[derive(Drop)]
pub(crate) struct KeptChange {
    pub staged: Staged,
    pub purge: Option<Option<Stamp>>,
    pub records: Vec<Record>,
    pub last: Stamp,
}

/// Makes the step's changes.
pub(crate) fn settle(
    keeping: &mut Keeping,
    sessions: &mut Vec<Session>,
    change: SessionChange,
    kept: KeptChange,
)
    requires keep { CanKeep (commits_of change) (LeavesKept change) keeping.old kept }
    requires rows { CanWriteNow change keeping.old }
    requires room { vec_len sessions.old < vec_capacity sessions.old }
    requires apart { AreApart sessions.old.items }
    ensures kept { (changes logged : Sequence AnyChange) → IsStaged changes kept.staged → IsLogged (commits_of change) keeping.old changes logged
        → keeping.new.kept ≡ after_parts conditions.tree kept.last kept.purge logged kept.records.items keeping.old.kept }
    ensures lists { (q : Client) → changes_of q keeping.new.logs ≡ changes_left change q (changes_of q keeping.old.logs) }
    ensures items { sessions.new.items ≡ settled_sessions change sessions.old.items }
    ensures len { vec_len sessions.new ≤ vec_len sessions.old + 1 }
    ensures capacity { vec_capacity sessions.new ≡ vec_capacity sessions.old }
{
    match change {
        SessionChange::Nothing => keep(keeping, None, kept),
        SessionChange::Begins(session) => {
            keep(keeping, None, kept);
            sessions.push_reserved(session);
        }
        SessionChange::Counts {
            client,
            statements,
            entries,
            results,
            forgets,
            rows,
        } => {
            settle_rows(keeping, client, rows, kept);
            count(sessions, client, statements, entries, results, forgets);
        }
        SessionChange::Ends(client) => {
            forget_rows(keeping, client, kept);
            end_session(sessions, client);
        }
    }
}

// Makes what becomes of the client's changes of rows, and the other changes.
fn settle_rows(keeping: &mut Keeping, client: ClientNo, rows: RowsChange, kept: KeptChange)
    requires keep { CanKeep (commits_by client rows) (IsAlone rows) keeping.old kept }
    requires rows { CanWriteRows rows client keeping.old }
    ensures kept { (changes logged : Sequence AnyChange) → IsStaged changes kept.staged → IsLogged (commits_by client rows) keeping.old changes logged
        → keeping.new.kept ≡ after_parts conditions.tree kept.last kept.purge logged kept.records.items keeping.old.kept }
    ensures lists { (q : Client) → changes_of q keeping.new.logs ≡ rows_left client rows q (changes_of q keeping.old.logs) }
{
    match rows {
        RowsChange::Nothing => keep(keeping, None, kept),
        RowsChange::Commits => keep(keeping, Some(client), kept),
        RowsChange::Writes { changes, contents } => {
            keeping.write(client, changes.into_vec(), contents);
            keep(keeping, None, kept);
        }
        RowsChange::Undoes => {
            keeping.rollback(client);
            keep(keeping, None, kept);
        }
    }
}

// Takes the client's changes of rows away, with its list, and makes the other changes.
fn forget_rows(keeping: &mut Keeping, client: ClientNo, kept: KeptChange)
    requires keep { CanKeep None (λ changes. changes ≡ []) keeping.old kept }
    ensures kept { (changes logged : Sequence AnyChange) → IsStaged changes kept.staged → IsLogged None keeping.old changes logged
        → keeping.new.kept ≡ after_parts conditions.tree kept.last kept.purge logged kept.records.items keeping.old.kept }
    ensures lists { (q : Client) → changes_of q keeping.new.logs ≡ (if q.0 == client.0 then [] else changes_of q keeping.old.logs) }
{
    forget(keeping, client);
    keep(keeping, None, kept);
}

/// Takes the client's changes of rows away, with its list.
pub(crate) fn forget(keeping: &mut Keeping, client: ClientNo)
    ensures kept { keeping.new.kept ≡ keeping.old.kept }
    ensures lists { (q : Client) → changes_of q keeping.new.logs ≡ (if q.0 == client.0 then [] else changes_of q keeping.old.logs) }
    ensures room { keeping.new.room ≡ keeping.old.room }
{
    keeping.forget(client);
}

// Commits the client's changes of rows, where one commits, and makes the other changes.
fn keep(keeping: &mut Keeping, commits: Option<ClientNo>, kept: KeptChange)
    requires fits { Fits kept.staged keeping.old }
    requires room { length kept.records.items ≤ keeping.old.room }
    requires can { (changes : Sequence AnyChange) × IsStaged changes kept.staged × CanSettle keeping.old commits changes kept.records.items kept.last }
    ensures kept { (changes logged : Sequence AnyChange) → IsStaged changes kept.staged → IsLogged commits keeping.old changes logged
        → keeping.new.kept ≡ after_parts conditions.tree kept.last kept.purge logged kept.records.items keeping.old.kept }
    ensures own { (client : Client) → commits ≡ Some client → changes_of client keeping.new.logs ≡ [] }
    ensures others { (client : Client) → commits ≢ Some client → changes_of client keeping.new.logs ≡ changes_of client keeping.old.logs }
{
    let KeptChange {
        staged,
        purge,
        records,
        last,
    } = kept;
    keeping.settle(staged, commits, records, purge, last);
}
