//! What changes of what is kept are made of, part by part, with no memory.
ghost use Rattle.std.specs.Prelude.{◌≡◌, ◌≢◌, ◌+◌, ◌++◌, ◌≤◌, [], Some, length, vec_capacity, vec_len};
ghost use Rattle.au_base.specs.declared.numbers.ClientNo.{ClientNo as Client};
ghost use Rattle.au_entries.specs.Frames.{purged, trail_left};
ghost use Rattle.au_kept.specs.Staging.{number_after, opened_count};
ghost use Rattle.au_kept.specs.descent.Tabling.{CanEdit, left_open, rows_edited_all, rows_for, tables_edited_all};
ghost use Rattle.au_txn.specs.Desks.{open_of, replayer};
ghost use Rattle.au_txn.specs.Keys.{IsKeyedDesk};
ghost use Rattle.au_txn.specs.Logs.{changes_of};

use crate::staged::TableEdit;
use crate::tabling::edit_tables;
use au_base::{ClientNo, Stamp};
use au_entries::Record;
use au_txn::Desk;

/// Commits the client's changes, where one commits, and then opens and closes tables.
pub(crate) fn settle_desk(desk: &mut Desk, commits: Option<ClientNo>, tables: Vec<TableEdit>)
    requires can { CanEdit (left_open commits desk.old) tables.items desk.old.tables }
    requires spare { opened_count tables.items ≤ desk.old.spare }
    ensures tables { desk.new.tables ≡ tables_edited_all tables.items desk.old.tables }
    ensures rows { desk.new.rows ≡ rows_edited_all tables.items (rows_for commits desk.old) }
    ensures own { (client : Client) → commits ≡ Some client → changes_of client desk.new.logs ≡ [] }
    ensures others { (client : Client) → commits ≢ Some client → changes_of client desk.new.logs ≡ changes_of client desk.old.logs }
    ensures quiet { open_of desk.old replayer ≡ [] → open_of desk.new replayer ≡ [] }
    ensures spare { desk.old.spare ≤ desk.new.spare + opened_count tables.items }
    ensures keyed { IsKeyedDesk desk.old → IsKeyedDesk desk.new }
{
    commit_for(desk, commits);
    edit_tables(desk, tables);
}

// Commits the client's changes, where one commits.
fn commit_for(desk: &mut Desk, commits: Option<ClientNo>)
    ensures tables { desk.new.tables ≡ desk.old.tables }
    ensures rows { desk.new.rows ≡ rows_for commits desk.old }
    ensures open { (client : Client) → open_of desk.new client ≡ left_open commits desk.old client }
    ensures own { (client : Client) → commits ≡ Some client → changes_of client desk.new.logs ≡ [] }
    ensures others { (client : Client) → commits ≢ Some client → changes_of client desk.new.logs ≡ changes_of client desk.old.logs }
    ensures spare { desk.old.spare ≤ desk.new.spare }
    ensures keyed { IsKeyedDesk desk.old → IsKeyedDesk desk.new }
{
    au_txn::desks_stay_keyed();
    if let Some(client) = commits {
        desk.commit(client);
    }
}

/// Takes away the records that the purge covers, where there is one, and adds these at the end.
pub(crate) fn settle_trail(
    trail: &mut Vec<Record>,
    purge: Option<Option<Stamp>>,
    records: Vec<Record>,
)
    requires room { vec_len trail.old + length records.items ≤ vec_capacity trail.old }
    ensures items { trail.new.items ≡ trail_left purge trail.old.items ++ records.items }
    ensures room { vec_capacity trail.old + vec_len trail.new ≤ vec_capacity trail.new + vec_len trail.old + length records.items }
{
    if let Some(before) = purge {
        purge_trail(trail, before);
    }
    add_records(trail, records);
}

fn purge_trail(trail: &mut Vec<Record>, before: Option<Stamp>)
    ensures items { trail.new.items ≡ purged before trail.old.items }
    ensures fewer { vec_len trail.new ≤ vec_len trail.old }
    ensures capacity { vec_capacity trail.new ≡ vec_capacity trail.old }
{
    match before {
        Some(moment) => keep_from(trail, moment),
        None => trail.clear(),
    }
}

fn keep_from(trail: &mut Vec<Record>, moment: Stamp)
    ensures items { trail.new.items ≡ purged (Some moment) trail.old.items }
    ensures fewer { vec_len trail.new ≤ vec_len trail.old }
    ensures capacity { vec_capacity trail.new ≡ vec_capacity trail.old }
{
    trail.retain(|entry| moment.0 <= entry.stamp.0);
}

fn add_records(trail: &mut Vec<Record>, mut records: Vec<Record>)
    requires room { vec_len trail.old + length records.items ≤ vec_capacity trail.old }
    ensures items { trail.new.items ≡ trail.old.items ++ records.items }
    ensures capacity { vec_capacity trail.old ≤ vec_capacity trail.new }
{
    if trail.append(&mut records).is_err() {
        unreachable!();
    }
}

/// The number of an instance that begins, or else this one.
pub(crate) fn number_after(begins: Option<u32>, before: u32) -> u32
    ensures { result ≡ number_after begins before }
{
    match begins {
        Some(instance) => instance,
        None => before,
    }
}
