//! What sessions hold while a statement is decided.
ghost use Rattle.std.specs.Prelude.{◌≡◌, ◌++◌, ◌&&◌, ◌==◌, [], IfOk, OnOk, if◌then◌else◌, filter, map, true};
ghost use Rattle.std.specs.List.{flat_map};
ghost use Rattle.au_base.specs.declared.numbers.ClientNo.{ClientNo as Client};
ghost use Rattle.au_step.specs.Step.{busy_in, busy_of, decided_in, settled};
ghost use Rattle.au_engine.specs.Inside.{busy_by};
ghost use Rattle.au_txn.specs.Desks.{open_of};
ghost use Rattle.au_txn.specs.Logs.{changes_of};
ghost use Rattle.au_txn.specs.Transactions.{names_table};

use crate::Engine;
use crate::sessions::users_of;
use au_audit::tables_of;
use au_base::{ClientNo, List, Memory, TableName, is_same_table};
use au_entries::Busy;
use au_ruling::commits;
use au_step::Session;
use au_txn::{Desk, RowChange};
use sql_ast::Statement;
use std::alloc::Global;

impl Engine {
    /// What sessions hold when the statement of the session is decided: after its commit, where it
    /// commits.
    pub(crate) fn busy(
        &self,
        alloc: Global,
        session: &Session,
        statement: &Statement,
    ) -> Result<Busy, Memory>
        ensures { IfOk result (λ busy. busy ≡ busy_in (decided_in self.now.state session.now.client statement.now) session.now.user statement.now) }
    {
        let connected = users_of(alloc, self.sessions.as_slice())?;
        let named = tables_of(alloc, &session.user, statement)?;
        let tables = self.busy_tables(alloc, commits(statement), session.client, named.as_slice())?;
        Ok(Busy { connected, tables })
    }

    // In which of the tables which clients have changes, where those of one client may be committed
    // before.
    fn busy_tables(
        &self,
        alloc: Global,
        commits: bool,
        client: ClientNo,
        tables: &[TableName],
    ) -> Result<List<(TableName, ClientNo)>, Memory>
        ensures { IfOk result (λ busy. busy ≡ flat_map (busy_of tables.now) (if commits then map (settled client) self.now.state.sessions else self.now.state.sessions)) }
    {
        self.holds_together();
        let desk = self.keeping.desk();
        if are_settled(desk, tables) {
            return Ok(List::new(alloc));
        }
        let busy = busy_in(
            alloc,
            desk,
            commits,
            client,
            self.sessions.as_slice(),
            tables,
        )?;
        Ok(busy)
    }
}

// Whether no client has a change in one of the tables.
fn are_settled(desk: &Desk, tables: &[TableName]) -> bool
    ensures { result ≡ true → (client : Client) → filter (λ table. names_table table (open_of desk.now client)) tables.now ≡ [] }
{
    for table in tables {
        if !desk.is_settled(table) {
            return false;
        }
    }
    true
}

// In which of the tables which clients have changes, session by session.
fn busy_in(
    alloc: Global,
    desk: &Desk,
    commits: bool,
    client: ClientNo,
    sessions: &[Session],
    tables: &[TableName],
) -> Result<List<(TableName, ClientNo)>, Memory>
    ensures { IfOk result (λ busy. busy ≡ flat_map (busy_by desk.now.logs commits client tables.now) sessions.now) }
{
    let mut busy = List::new(alloc);
    for session in sessions {
        let changes = transaction_at(desk, commits, client, session.client);
        add_busy(&mut busy, changes, session.client, tables)?;
    }
    Ok(busy)
}

// The changes of a client, of which those of one may be committed before.
fn transaction_at(desk: &Desk, commits: bool, client: ClientNo, other: ClientNo) -> &[RowChange]
    ensures { result.now ≡ (if commits && other.0 == client.0 then [] else changes_of other desk.now.logs) }
{
    if commits && other.0 == client.0 {
        &[]
    } else {
        desk.changes(other)
    }
}

// Adds those of the tables in which the client has one of the changes.
fn add_busy(
    busy: &mut List<(TableName, ClientNo)>,
    changes: &[RowChange],
    client: ClientNo,
    tables: &[TableName],
) -> Result<(), Memory>
    ensures { OnOk result (busy.new ≡ busy.old ++ map (λ table. (table, client)) (filter (λ table. names_table table changes.now) tables.now)) }
{
    for table in tables {
        if names_table(table, changes) {
            busy.push((table.clone()?, client))?;
        }
    }
    Ok(())
}

// Whether one of the changes is of a row of the table.
fn names_table(table: &TableName, changes: &[RowChange]) -> bool
    ensures { result ≡ names_table table.now changes.now }
{
    changes
        .iter()
        .any(|change| is_same_table(&change.table, table))
}
